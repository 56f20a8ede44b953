// The events of the day: three lots, four steps each.
ghost use Rattle.std.specs.Prelude.{◌<◌};

use crate::clock::{DAY, HOUR};
use crate::lot::Lot;
use crate::room::Room;
use crate::step::Step;
use network::tables::{Event, Window};
use std::{array, fmt};

pub const EVENTS: usize = 12;

// The day that the lots arrive. Day 0 is the first day of the bank's year.
const START: u32 = 100 * DAY;

// The drier and the sealing bench are staffed from six in the morning to eight in the evening of the next day.
const STAFFED: Window = Window {
    earliest: START + 6 * HOUR,
    latest: START + DAY + 20 * HOUR,
};

// All lots are to lie on their shelves by noon of that next day.
pub const SHELVING: Window = Window {
    earliest: STAFFED.earliest,
    latest: START + DAY + 12 * HOUR,
};

// A step of one lot's handling.
#[derive(Clone, Copy)]
pub struct DayEvent {
    pub lot: Lot,
    pub step: Step,
}

impl DayEvent {
    // Its place in the day: events 0 to 3 are the emmer wheat's, 4 to 7 the wild lupin's and 8 to 11 the mountain
    // rye's.
    pub fn index(self) -> usize
        ensures { result < EVENTS }
    {
        self.lot as usize * Step::ALL.len() + self.step as usize
    }

    // Where it happens. Lupin goes to the base collection in the freezer, the other two lots to the cold room for
    // active use.
    pub fn room(self) -> Room {
        match (self.step, self.lot) {
            (Step::Arrives, _) => Room::Intake,
            (Step::Dries, _) => Room::Drier,
            (Step::Sealed, _) => Room::Sealing,
            (Step::Shelved, Lot::Lupin) => Room::Freezer,
            (Step::Shelved, Lot::Emmer | Lot::Rye) => Room::ColdRoom,
        }
    }

    // The window that is given for it from outside: for an arrival, when the van comes.
    pub fn given(self) -> Window {
        match self.step {
            Step::Arrives => van(self.lot),
            Step::Dries | Step::Sealed => STAFFED,
            Step::Shelved => SHELVING,
        }
    }
}

impl From<DayEvent> for Event {
    fn from(event: DayEvent) -> Event {
        Event {
            room: event.room().into(),
            window: event.given(),
        }
    }
}

impl fmt::Display for DayEvent {
    fn fmt<W: fmt::Write>(&self, f: &mut fmt::Formatter<W>) -> fmt::Result {
        write!(f, "{} {}", self.lot, self.step)
    }
}

fn van(lot: Lot) -> Window {
    match lot {
        Lot::Emmer => Window {
            earliest: START + 7 * HOUR,
            latest: START + 9 * HOUR,
        },
        Lot::Lupin => Window {
            earliest: START + 8 * HOUR,
            latest: START + 12 * HOUR,
        },
        Lot::Rye => Window {
            earliest: START + 10 * HOUR,
            latest: START + 16 * HOUR,
        },
    }
}

// All events, each at its place in the day.
pub fn events() -> [DayEvent; EVENTS] {
    array::from_fn(|index| DayEvent {
        lot: Lot::ALL[index / Step::ALL.len()],
        step: Step::ALL[index % Step::ALL.len()],
    })
}
