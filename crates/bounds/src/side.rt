// A side of a window: all that differs between earliest and latest stands in its two implementations.
pub mod earliest;
pub mod latest;

ghost use Rattle.std.specs.Prelude.{◌≡◌, pos};
ghost use Rattle.bounds.specs.Sides.{Side as Which, other, tighter, carry, Lawful};
ghost use Rattle.bounds.specs.Ends.{loosest, end_of, with_end};
ghost use Rattle.bounds.specs.declared.end.End.{End as EndOf};

use crate::end::{End, Ends};
use crate::gap::Passage;

pub trait Side {
    // which side of the definitions this is
    ghost which: { Which };

    // No end of a plan is looser.
    const LOOSEST: End;

    // stands for it in clauses: that both are the same end is proved for each side
    ghost LOOSEST: { EndOf };

    // That end. (The law on the constant says the same.)
    fn fresh() -> End
        ensures { result ≡ loosest which };

    // Whether a is strictly tighter than b.
    fn is_tighter(a: i64, b: i64) -> bool
        ensures { result ≡ tighter which a b };

    // The minute that a rule carries over. (A carried minute lies near an end's, so the sum cannot leave an i64.)
    fn carry(minute: u32, passage: Passage) -> i64
        ensures { result ≡ carry which passage.gap passage.way (pos minute) };

    fn of(ends: Ends) -> End
        ensures { result ≡ end_of which ends };

    fn opposite(ends: Ends) -> End
        ensures { result ≡ end_of (other which) ends };

    fn with(ends: Ends, end: End) -> Ends
        ensures { result ≡ with_end which ends end };

    // what a side has to show: laws, since they stand below the last function
    ghost loosest_is: { LOOSEST ≡ loosest which };

    ghost lawful: { Lawful which };
}
