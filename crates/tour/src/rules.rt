// The rules of the day. A rule bounds the minutes from one event to another.
use crate::day::DayEvent;
use crate::lot::Lot;
use crate::step::Step;
use bounds::gap::Gap;
use network::tables::Rule;
use std::fmt;

// A lot waits at most half a day in the intake room, unless the tour tightens that.
pub const LONGEST_WAIT: i32 = 720;

// The other bounds, in minutes. A lot is unpacked before it dries.
const UNPACKING: i32 = 15;

// Seed that dries too short rots, and seed that dries too long cracks. Dry seed draws water from the air, so the bag is
// closed within half an hour after the drier is opened.
const SHORTEST_DRYING: i32 = 480;

const LONGEST_DRYING: i32 = 600;

const CLOSING: i32 = 30;

const CARRYING: i32 = 10;

// A sealed lot stands at most so long at room temperature.
const LONGEST_STANDING: i32 = 60;

// The drier is swept between two lots, so that no seed of the one is left among the other.
const SWEEPING: i32 = 20;

const ONE_DAY: i32 = 1_440;

// The catalogue is written in one go, from the first shelved lot to the last.
const CATALOGUE_HOURS: i32 = 18;

#[derive(Clone, Copy)]
pub enum DayRule {
    // how long a lot waits in the intake room
    Waiting(Lot),
    // how long it lies in the drier, and is open after that
    Drying(Lot),
    // how long its sealed bag stands at room temperature
    Standing(Lot),
    // the one drier is swept after the first of two lots and before the second
    Sweeping(Lot, Lot),
    // the catalogue is written from the first of two lots to the second
    Cataloguing(Lot, Lot),
}

// First come the three rules of each lot, from its arrival to its shelf, then the three between lots.
pub static RULES: [DayRule; 12] = [
    DayRule::Waiting(Lot::Emmer),
    DayRule::Drying(Lot::Emmer),
    DayRule::Standing(Lot::Emmer),
    DayRule::Waiting(Lot::Lupin),
    DayRule::Drying(Lot::Lupin),
    DayRule::Standing(Lot::Lupin),
    DayRule::Waiting(Lot::Rye),
    DayRule::Drying(Lot::Rye),
    DayRule::Standing(Lot::Rye),
    DayRule::Sweeping(Lot::Emmer, Lot::Lupin),
    DayRule::Sweeping(Lot::Lupin, Lot::Rye),
    DayRule::Cataloguing(Lot::Emmer, Lot::Rye),
];

impl DayRule {
    // The rule as the draft takes it, with the longest wait of the last lot as a parameter.
    pub fn entry(self, rye_wait: i32) -> Rule {
        let (from, to) = self.ends();
        Rule {
            from: from.index() as u8,
            to: to.index() as u8,
            gap: self.gap(rye_wait),
        }
    }

    // Whether the tour tells it: the other lots have the rules of the first lot too, in the same words.
    pub fn is_told(self) -> bool {
        match self {
            Self::Waiting(lot) | Self::Drying(lot) | Self::Standing(lot) => lot == Lot::Emmer,
            Self::Sweeping(_, _) | Self::Cataloguing(_, _) => true,
        }
    }

    fn ends(self) -> (DayEvent, DayEvent) {
        match self {
            Self::Waiting(lot) => (lot.at(Step::Arrives), lot.at(Step::Dries)),
            Self::Drying(lot) => (lot.at(Step::Dries), lot.at(Step::Sealed)),
            Self::Standing(lot) => (lot.at(Step::Sealed), lot.at(Step::Shelved)),
            Self::Sweeping(one, next) => (one.at(Step::Sealed), next.at(Step::Dries)),
            Self::Cataloguing(one, last) => (one.at(Step::Shelved), last.at(Step::Shelved)),
        }
    }

    fn gap(self, rye_wait: i32) -> Gap {
        let (least, most) = match self {
            Self::Waiting(Lot::Rye) => (UNPACKING, rye_wait),
            Self::Waiting(_) => (UNPACKING, LONGEST_WAIT),
            Self::Drying(_) => (SHORTEST_DRYING, LONGEST_DRYING + CLOSING),
            Self::Standing(_) => (CARRYING, LONGEST_STANDING),
            Self::Sweeping(_, _) => (SWEEPING, ONE_DAY),
            Self::Cataloguing(_, _) => (0, CATALOGUE_HOURS * 60),
        };
        Gap { least, most }
    }
}

impl fmt::Display for DayRule {
    fn fmt<W: fmt::Write>(&self, f: &mut fmt::Formatter<W>) -> fmt::Result {
        let (from, to) = self.ends();
        match self {
            Self::Waiting(_) => write!(
                f,
                "a lot enters the drier {UNPACKING} minutes after its arrival or later, and within its longest wait"
            ),
            Self::Drying(_) => write!(
                f,
                "a lot dries for {SHORTEST_DRYING} to {LONGEST_DRYING} minutes and is sealed within {CLOSING} minutes of leaving the drier"
            ),
            Self::Standing(_) => write!(
                f,
                "a sealed lot is shelved {CARRYING} to {LONGEST_STANDING} minutes later"
            ),
            Self::Sweeping(_, _) => write!(
                f,
                "the {to} {SWEEPING} minutes after the {from}, or later"
            ),
            Self::Cataloguing(one, _) => write!(
                f,
                "the {to} after the {one}, within {CATALOGUE_HOURS} hours"
            ),
        }
    }
}
