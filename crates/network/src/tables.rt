// The rows that a plan is made of.
ghost use Rattle.std.specs.Prelude.{◌≡◌};
ghost use Rattle.network.specs.Checks.{has_minute};
ghost use Rattle.network.specs.Nets.{leaves, enters};
ghost use Rattle.network.specs.Rounds.{given_ends};
ghost use Rattle.network.specs.Rows.{opens};
ghost use Rattle.network.specs.Solved.{window_of};

use bounds::end::{End, Ends};
use bounds::gap::{Gap, Way};

// The minutes from an earliest to a latest, both included.
#[derive(Clone, Copy, PartialEq, Eq)]
pub struct Window {
    pub earliest: u32,
    pub latest: u32,
}

impl Window {
    // Whether it is not empty and ends by the last minute.
    pub fn opens(self) -> bool
        ensures { result ≡ opens self }
    {
        self.earliest <= self.latest && self.latest <= 527_040
    }

    pub fn contains(self, minute: u32) -> bool
        ensures { result ≡ has_minute self minute }
    {
        (self.earliest..=self.latest).contains(&minute)
    }
}

impl From<Ends> for Window {
    ghost from_gives = { λ ends window. window ≡ window_of ends };

    fn from(ends: Ends) -> Window {
        Window {
            earliest: ends.earliest.minute,
            latest: ends.latest.minute,
        }
    }
}

// An event: its room, and its given window.
#[derive(Clone, Copy, PartialEq, Eq)]
pub struct Event {
    pub room: u8,
    pub window: Window,
}

// An event's given ends have no links.
impl From<Event> for Ends {
    ghost from_gives = { λ event ends. ends ≡ given_ends event };

    fn from(event: Event) -> Ends {
        Ends {
            earliest: End {
                minute: event.window.earliest,
                links: 0,
            },
            latest: End {
                minute: event.window.latest,
                links: 0,
            },
        }
    }
}

// A rule: the minutes from the one event to the other keep to a gap.
#[derive(Clone, Copy, PartialEq, Eq)]
pub struct Rule {
    pub from: u8,
    pub to: u8,
    pub gap: Gap,
}

impl Rule {
    // The event that the rule leads out of on this way.
    pub fn leaves(&self, way: Way) -> u8
        ensures { result ≡ leaves self.now way }
    {
        match way {
            Way::Back => self.to,
            Way::Ahead => self.from,
        }
    }

    // The event that the rule leads to on this way.
    // Kept: its own match, as `leaves` has: one through the other would want a way turned round, which none does.
    pub fn enters(&self, way: Way) -> u8
        ensures { result ≡ enters self.now way }
    {
        match way {
            Way::Back => self.from,
            Way::Ahead => self.to,
        }
    }
}

// A view: an event as it is known in another room.
#[derive(Clone, Copy, PartialEq, Eq)]
pub struct View {
    pub event: u8,
    pub room: u8,
}
