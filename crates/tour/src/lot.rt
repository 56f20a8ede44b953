// The three lots of the day, in the order in which they are written down.
use crate::day::DayEvent;
use crate::step::Step;
use std::fmt;

#[derive(Clone, Copy, PartialEq, Eq)]
pub enum Lot {
    Emmer,
    Lupin,
    Rye,
}

impl Lot {
    pub const ALL: [Lot; 3] = [Lot::Emmer, Lot::Lupin, Lot::Rye];

    // The lot's event at a step.
    pub fn at(self, step: Step) -> DayEvent {
        DayEvent { lot: self, step }
    }
}

impl fmt::Display for Lot {
    fn fmt<W: fmt::Write>(&self, f: &mut fmt::Formatter<W>) -> fmt::Result {
        f.pad(match self {
            Lot::Emmer => "emmer wheat",
            Lot::Lupin => "wild lupin",
            Lot::Rye => "mountain rye",
        })
    }
}
