// One event against a source by a rule: the step that the central rounds and a room's work are made of.
ghost use Rattle.std.specs.Prelude.{◌≡◌, ◌<◌};
ghost use Rattle.network.specs.Revised.{revised, one_side};

use bounds::bar::Cause;
use bounds::end::Ends;
use bounds::gap::Passage;
use bounds::narrow::{carry, replace};
use bounds::side::Side;
use bounds::side::earliest::Earliest;
use bounds::side::latest::Latest;

// What became of an event: its ends, how many of them moved, and why the plan is barred, if it is.
// Kept: no Result, since a bar undoes no move that came before it, and both are to be told.
#[derive(Clone, Copy)]
pub struct Revision {
    pub ends: Ends,
    pub moves: u8,
    pub bar: Option<Cause>,
}

// The event holds `held`; the passage leads to it, from an event that holds `source`.
// The earliest end is narrowed first, then the latest; an end that bars is not stored, and nothing follows it.
pub fn revise(held: Ends, source: Ends, passage: Passage, events: u8) -> Revision
    ensures { result ≡ revised events passage.gap passage.way held source }
{
    let begun = Revision {
        ends: held,
        moves: 0,
        bar: None,
    };
    let half = narrow_side::<Earliest>(begun, source, passage, events);
    narrow_side::<Latest>(half, source, passage, events)
}

fn narrow_side<S: Side>(so_far: Revision, source: Ends, passage: Passage, events: u8) -> Revision
    requires { so_far.moves < 2 }
    ensures { result ≡ one_side S.Side.which events passage.gap passage.way source so_far }
{
    if so_far.bar.is_some() {
        return so_far;
    }
    let ends = so_far.ends;
    let carried = carry::<S>(S::of(source), passage);
    match replace::<S>(S::of(ends), S::opposite(ends), carried, events) {
        Ok(None) => so_far,
        Ok(Some(end)) => Revision {
            ends: S::with(ends, end),
            moves: so_far.moves + 1,
            ..so_far
        },
        Err(cause) => Revision {
            bar: Some(cause),
            ..so_far
        },
    }
}
