// The latest side: the smaller minute is tighter.
ghost use Rattle.std.specs.Prelude.{refl};
ghost use Rattle.bounds.specs.Sides.{latest};
ghost use Rattle.bounds.specs.Ends.{loosest};
ghost use Rattle.bounds.specs.SidesLemmas;

use crate::end::{End, Ends};
use crate::gap::{Passage, Way};
use crate::side::Side;

pub struct Latest;

impl Side for Latest {
    ghost which = { latest };

    ghost LOOSEST = { loosest latest };

    const LOOSEST: End = End {
        minute: 527_040,
        links: 0,
    };

    ghost loosest_is = { refl };

    ghost lawful = { SidesLemmas.lawful latest };

    fn fresh() -> End {
        Self::LOOSEST
    }

    fn is_tighter(a: i64, b: i64) -> bool {
        a < b
    }

    fn carry(minute: u32, passage: Passage) -> i64 {
        match passage.way {
            Way::Back => i64::from(minute) - i64::from(passage.gap.least),
            Way::Ahead => i64::from(minute) + i64::from(passage.gap.most),
        }
    }

    fn of(ends: Ends) -> End {
        ends.latest
    }

    fn opposite(ends: Ends) -> End {
        ends.earliest
    }

    fn with(ends: Ends, end: End) -> Ends {
        Ends {
            earliest: ends.earliest,
            latest: end,
        }
    }
}
