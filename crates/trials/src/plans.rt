// Random plans. Many are made around a hidden schedule, so that large plans with a schedule come too, and in some
// of these a few rules do not keep to it, so that large plans come that fail only just.
use crate::book::{LAST, MOST_EVENTS};
use crate::entry::Entry;
use crate::random::Random;
use crate::shape::{Middle, Shape, Turn};
use crate::slips::{wrong_event, wrong_rule};
use bounds::gap::Gap;
use network::tables::{Event, Rule, Window};
use std::alloc::{AllocError, Global};

const WHOLE_YEAR: Window = Window {
    earliest: 0,
    latest: LAST,
};

// Draws the entries of one plan.
#[derive(Drop)]
pub struct Maker {
    pub random: Random,
    shape: Shape,
    // the minute of each event in the hidden schedule
    hidden: Vec<u32>,
    // the last rule's events, which the next rule may have again
    from: u8,
    to: u8,
}

impl Maker {
    pub fn new(heap: Global, seed: u64) -> Maker {
        let mut random = Random::new(seed);
        let shape = Shape::draw(&mut random);
        Maker {
            random,
            shape,
            hidden: Vec::new(heap),
            from: 0,
            to: 0,
        }
    }

    pub fn turns(&self) -> [Turn; 2] {
        self.shape.turns
    }

    pub fn event(&mut self) -> Result<Entry, AllocError> {
        let after = self.random.up_to(self.shape.scale);
        let at = self.shape.base.saturating_add(after);
        let room = self.random.byte_below(self.shape.rooms);
        let window = self.window(at);
        if self.slips() {
            return Ok(Entry::Event(wrong_event(&mut self.random, room, window)));
        }
        if self.hidden.len() < MOST_EVENTS {
            self.hidden.push(at)?;
        }
        Ok(Entry::Event(Event { room, window }))
    }

    fn window(&mut self, at: u32) -> Window {
        let before = self.random.up_to(self.shape.slack);
        let after = self.random.up_to(self.shape.slack);
        let point = Window {
            earliest: at,
            latest: at,
        };
        if self.shape.chain && self.hidden.is_empty() {
            return point;
        }
        if self.shape.wide {
            return WHOLE_YEAR;
        }
        match self.random.below(8) {
            0 => WHOLE_YEAR,
            1 => point,
            2 => Window {
                earliest: 0,
                ..point
            },
            3 => Window {
                latest: LAST,
                ..point
            },
            _ => Window {
                earliest: at.saturating_sub(before),
                latest: at.saturating_add(after).min(LAST),
            },
        }
    }

    pub fn rule(&mut self) -> Entry {
        if self.shape.chain {
            self.step_back();
        } else if !self.random.one_in(4) {
            let events = self.events();
            self.from = self.random.byte_below(events);
            self.to = self.other();
        }
        let rule = Rule {
            from: self.from,
            to: self.to,
            gap: self.gap(),
        };
        if self.slips() {
            Entry::Rule(wrong_rule(&mut self.random, rule))
        } else {
            Entry::Rule(rule)
        }
    }

    // How many events the plan has.
    // Kept: no `as u8`, since no type bounds the list; no plan has so many events that no byte holds their number.
    fn events(&self) -> u8 {
        u8::try_from(self.hidden.len()).unwrap_or(u8::MAX)
    }

    // The pairs of neighbours from the last to the first, then the two ends, which close the chain.
    fn step_back(&mut self) {
        if self.from > 0 {
            self.from -= 1;
            self.to = self.from + 1;
        } else if self.to == 1 {
            self.to = self.events().saturating_sub(1);
        } else {
            self.from = self.events().saturating_sub(2);
            self.to = self.from.saturating_add(1);
        }
    }

    // An event that is not `from`, where there is one.
    fn other(&mut self) -> u8 {
        let events = self.events();
        let step = self.random.byte_below(events.saturating_sub(1));
        let past = self.from.saturating_add(step).saturating_add(1);
        if past < events {
            past
        } else {
            past.saturating_sub(events)
        }
    }

    // Both sides, one side or a point around the middle. In a chain always both sides, so that both ends travel.
    fn gap(&mut self) -> Gap {
        let middle = self.middle();
        let before = i64::from(self.random.up_to(self.shape.slack));
        let after = i64::from(self.random.up_to(self.shape.slack));
        let both = Gap {
            least: bounded(middle.saturating_sub(before)),
            most: bounded(middle.saturating_add(after)),
        };
        if self.shape.chain {
            return both;
        }
        match self.random.below(8) {
            0 => Gap {
                least: bounded(middle),
                most: bounded(middle),
            },
            1 => Gap {
                most: 527_040,
                ..both
            },
            2 => Gap {
                least: -527_040,
                ..both
            },
            _ => both,
        }
    }

    // The minutes between the rule's two events in the hidden schedule, or any where there is none.
    fn middle(&mut self) -> i64 {
        let from = i64::from(self.hidden_minute(self.from));
        let apart = i64::from(self.hidden_minute(self.to)) - from;
        match self.shape.middle {
            Middle::Anywhere => {
                let there = i64::from(self.random.up_to(self.shape.scale));
                let back = i64::from(self.random.up_to(self.shape.scale));
                there - back
            }
            Middle::Broken if self.random.one_in(16) => {
                let farther = i64::from(self.random.up_to(self.shape.slack));
                apart + farther + 1
            }
            Middle::Hidden | Middle::Broken => apart,
        }
    }

    // An event that is not there yet counts as one of minute 0.
    // Kept: a rule of it is drawn, and refused, with a gap as of any other, so that the draws stay the same.
    fn hidden_minute(&self, event: u8) -> u32 {
        self.hidden.get(usize::from(event)).copied().unwrap_or(0)
    }

    fn slips(&mut self) -> bool {
        self.shape.slips && self.random.one_in(16)
    }
}

// The nearest bound that a rule may have.
fn bounded(minutes: i64) -> i32 {
    let last = i64::from(LAST);
    minutes.clamp(-last, last) as i32
}
