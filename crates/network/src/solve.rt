// The central call: rounds over all rules, until one moves nothing or bars.
ghost use Rattle.std.specs.Prelude.{◌≡◌, ℕ, ◌+◌, ◌<◌, ◌≤◌, true, ◌↔◌, map, length, IsOk, IsErr, IfOk, Some as Barring, None as Unbarred, MatchResult};
ghost use Rattle.network.specs.Drafts.{net};
ghost use Rattle.network.specs.Nets.{count, Hopeless};
ghost use Rattle.network.specs.Rounds.{step, sweep, begun, given_ends, central};
ghost use Rattle.network.specs.Rows.{Pass, joins};
ghost use Rattle.network.specs.Solved.{solve_answer, solve_leaves, Windows, Filled};

use crate::draft::{Draft, MOST_EVENTS};
use crate::revise::revise;
use crate::tables::{Rule, Window};
use bounds::bar::Bar;
use bounds::end::Ends;
use bounds::fault::PlanFault;
use bounds::gap::{Passage, Way};
use bounds::side::Side;
use bounds::side::earliest::Earliest;
use bounds::side::latest::Latest;

// How many rounds were run.
#[derive(Clone, Copy)]
pub struct Solution {
    pub rounds: u8,
}

// Fills the first places of the list with the windows of the events, in their order.
pub fn solve(draft: &Draft, windows: &mut [Window]) -> Result<Solution, PlanFault>
    ensures value { result ≡ solve_answer (net draft.now) windows.old }
    ensures after { windows.new ≡ solve_leaves (net draft.now) windows.old }
    ensures refuses { count (net draft.now) ≤ length windows.old → IsErr result ↔ Hopeless (net draft.now) }
    ensures exact { IsOk result → Windows (net draft.now) windows.new }
    ensures rounds { IfOk result (λ a. (1 ≤ a.rounds) × (0 < count (net draft.now) → a.rounds ≤ count (net draft.now))) }
{
    let events = draft.events();
    let count = events.len();
    if windows.len() < count {
        return Err(PlanFault::TooFewPlaces);
    }
    // Kept: a fixed array, and no Vec: no call after the making of a draft asks for memory. An ArrayVec would need none,
    // but be filled by pushes that each have to be proved to fit, where a slice of the array has its length.
    let mut table = [Ends {
        earliest: Earliest::LOOSEST,
        latest: Latest::LOOSEST,
    }; MOST_EVENTS];
    let ends = &mut table[0..count];
    fill(ends, events);
    let rounds = run_rounds(draft, ends)?;
    fill(windows, ends);
    Ok(Solution { rounds })
}

// The number of rounds, or the bar.
fn run_rounds(draft: &Draft, ends: &mut [Ends]) -> Result<u8, Bar>
    requires { ends.old ≡ map given_ends (net draft.now).events }
    ensures { MatchResult result (λ rounds. central (net draft.now) ≡ record { rounds = rounds; table = ends.new; bar = Unbarred }) (λ bar. (central (net draft.now)).bar ≡ Barring bar) }
{
    let rules = draft.rules();
    // Kept: their number beside the ends: read off them at each step, it would have to be proved to fit a u8, and the
    // contracts of `sweep` and `step` would want a bound on their length.
    let events = ends.len() as u8;
    let mut rounds = 1;
    while sweep(rules, ends, events)? > 0 {
        rounds += 1;
    }
    Ok(rounds)
}

// One round: how many ends moved, or the bar.
fn sweep(rules: &[Rule], ends: &mut [Ends], events: u8) -> Result<u32, Bar>
    requires known { Pass (joins (length ends.old)) rules.now }
    requires few { length rules.now ≤ 128 }
    ensures { MatchResult result (λ moves. sweep events rules.now (begun ends.old) ≡ record { table = ends.new; moves = moves; bar = Unbarred }) (λ bar. (sweep events rules.now (begun ends.old)).bar ≡ Barring bar) }
{
    let mut moves = 0;
    for rule in rules {
        moves += step(rule, Way::Back, ends, events)?;
        moves += step(rule, Way::Ahead, ends, events)?;
    }
    Ok(moves)
}

// One rule on one way: how many ends moved, or the bar.
fn step(rule: &Rule, way: Way, ends: &mut [Ends], events: u8) -> Result<u32, Bar>
    requires { joins (length ends.old) rule.now ≡ true }
    ensures { MatchResult result (λ moves. (moves ≤ 2) × ((before : ℕ) → step events rule.now way (record { table = ends.old; moves = before; bar = Unbarred }) ≡ record { table = ends.new; moves = before + moves; bar = Unbarred })) (λ bar. (before : ℕ) → (step events rule.now way (record { table = ends.old; moves = before; bar = Unbarred })).bar ≡ Barring bar) }
{
    let source = rule.leaves(way);
    let target = rule.enters(way);
    let revision = revise(
        ends[usize::from(target)],
        ends[usize::from(source)],
        Passage { gap: rule.gap, way },
        events,
    );
    ends[usize::from(target)] = revision.ends;
    match revision.bar {
        Some(cause) => Err(Bar {
            cause,
            event: target,
        }),
        None => Ok(u32::from(revision.moves)),
    }
}

// Fills the first places of a list with what the items turn into.
fn fill<A: Copy, B: Copy + From<A>>(places: &mut [B], items: &[A])
    requires { length items.now ≤ length places.old }
    ensures { Filled B.from_gives items.now places.old places.new }
{
    // Kept: an index: of what an iter_mut zipped with the items wrote (tried), a proof knows nothing.
    for (x, item) in items.iter().enumerate() {
        places[x] = B::from(*item);
    }
}
