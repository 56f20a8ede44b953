// Comparing, carrying, joining and replacing an end, written once for both sides.
ghost use Rattle.std.specs.Prelude.{◌≡◌};
ghost use Rattle.bounds.specs.Sides.{tighter};
ghost use Rattle.bounds.specs.Ends.{lies, carried, join, Join};
ghost use Rattle.bounds.specs.Narrowed.{narrowed};

use crate::bar::Cause;
use crate::end::{Carried, End};
use crate::gap::Passage;
use crate::side::Side;

pub fn is_tighter<S: Side>(a: End, b: End) -> bool
    ensures { result ≡ tighter S.Side.which (lies a) (lies b) }
{
    S::is_tighter(i64::from(a.minute), i64::from(b.minute))
}

pub fn carry<S: Side>(end: End, passage: Passage) -> Carried
    ensures { result ≡ carried S.Side.which passage.gap passage.way end }
{
    Carried {
        minute: S::carry(end.minute, passage),
        links: u16::from(end.links) + 1,
    }
}

// The tighter of two ends, and of equal minutes the one over fewer links.
// Kept: compared by hand, since which minute is tighter depends on the side, and no derived order can.
pub fn join<S: Side>(a: End, b: End) -> End
    ensures value { result ≡ join S.Side.which a b }
    ensures best { Join S.Side.which a b result }
{
    if is_tighter::<S>(b, a) || (a.minute == b.minute && b.links < a.links) {
        b
    } else {
        a
    }
}

// The end that takes the held one's place, if the carried one is strictly tighter, or why it leaves the event no
// minute, in a plan of so many events.
pub fn replace<S: Side>(
    held: End,
    opposite: End,
    carried: Carried,
    events: u8,
) -> Result<Option<End>, Cause>
    ensures { result ≡ narrowed S.Side.which events held opposite carried }
{
    if !S::is_tighter(carried.minute, i64::from(held.minute)) {
        return Ok(None);
    }
    if S::is_tighter(carried.minute, i64::from(opposite.minute)) {
        return Err(Cause::Crossed);
    }
    if carried.links >= u16::from(events) {
        return Err(Cause::Cycle);
    }
    // Kept: no TryFrom, which would have a failure to answer for. Here both fit: the minute lies between two held ones,
    // and there are fewer links than events.
    Ok(Some(End {
        minute: carried.minute as u32,
        links: carried.links as u8,
    }))
}
