// The earliest side: the greater minute is tighter.
ghost use Rattle.std.specs.Prelude.{refl};
ghost use Rattle.bounds.specs.Sides.{earliest};
ghost use Rattle.bounds.specs.Ends.{loosest};
ghost use Rattle.bounds.specs.SidesLemmas;

use crate::end::{End, Ends};
use crate::gap::{Passage, Way};
use crate::side::Side;

pub struct Earliest;

impl Side for Earliest {
    ghost which = { earliest };

    ghost LOOSEST = { loosest earliest };

    const LOOSEST: End = End {
        minute: 0,
        links: 0,
    };

    ghost loosest_is = { refl };

    ghost lawful = { SidesLemmas.lawful earliest };

    fn fresh() -> End {
        Self::LOOSEST
    }

    fn is_tighter(a: i64, b: i64) -> bool {
        a > b
    }

    fn carry(minute: u32, passage: Passage) -> i64 {
        match passage.way {
            Way::Back => i64::from(minute) - i64::from(passage.gap.most),
            Way::Ahead => i64::from(minute) + i64::from(passage.gap.least),
        }
    }

    fn of(ends: Ends) -> End {
        ends.earliest
    }

    fn opposite(ends: Ends) -> End {
        ends.latest
    }

    fn with(ends: Ends, end: End) -> Ends {
        Ends {
            earliest: end,
            latest: ends.latest,
        }
    }
}
