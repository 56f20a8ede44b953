// The trials' own copy of a plan, and what they expect each entry to answer.
use crate::answer::Fault::{self, Refused};
use crate::answer::{Answer, NOWHERE};
use crate::entry::Entry;
use bounds::gap::Gap;
use network::tables::{Event, Rule, View, Window};
use std::alloc::{AllocError, Global};

pub const LAST: u32 = 527_040;

pub const MOST_EVENTS: usize = 64;

const MOST_RULES: usize = 128;

const MOST_VIEWS: usize = 64;

const FARTHEST: i32 = 527_040;

// The refusal for too many views.
const CROWDED: Fault = Refused(8, NOWHERE);

#[derive(Drop)]
pub struct Book {
    pub events: Vec<Event>,
    pub rules: Vec<Rule>,
    pub views: Vec<View>,
    // entries that were refused, and how many of these for want of views
    pub refused: u32,
    pub crowded: u32,
}

impl Book {
    pub fn new(heap: Global) -> Book {
        Book {
            events: Vec::new(heap),
            rules: Vec::new(heap),
            views: Vec::new(heap),
            refused: 0,
            crowded: 0,
        }
    }

    // Writes the entry down if it ought to be accepted, and says what it ought to answer.
    pub fn enter(&mut self, entry: Entry) -> Result<Answer, AllocError> {
        let answer = match entry {
            Entry::Event(event) => self.enter_event(event)?,
            Entry::Rule(rule) => self.enter_rule(rule)?,
        };
        if let Err(fault) = answer {
            self.count(fault);
        }
        Ok(answer)
    }

    fn enter_event(&mut self, event: Event) -> Result<Answer, AllocError> {
        let answer = self.event_answer(event);
        if answer.is_ok() {
            self.events.push(event)?;
        }
        Ok(answer)
    }

    fn enter_rule(&mut self, rule: Rule) -> Result<Answer, AllocError> {
        let wanted = self.wanted(rule);
        let answer = self.rule_answer(rule, wanted.iter().flatten().count());
        if answer.is_ok() {
            self.views.extend(wanted.into_iter().flatten())?;
            self.rules.push(rule)?;
        }
        Ok(answer)
    }

    fn count(&mut self, fault: Fault) {
        self.refused = self.refused.saturating_add(1);
        if fault == CROWDED {
            self.crowded = self.crowded.saturating_add(1);
        }
    }

    fn event_answer(&self, event: Event) -> Answer {
        let row = self.events.len();
        let Window { earliest, latest } = event.window;
        if event.room > 7 {
            Err(Refused(1, event.room))
        } else if latest > LAST || latest < earliest {
            Err(Refused(2, NOWHERE))
        } else if row >= MOST_EVENTS {
            Err(Refused(3, NOWHERE))
        } else {
            Ok(row as u8)
        }
    }

    // The rule wants so many new views.
    fn rule_answer(&self, rule: Rule, wanted: usize) -> Answer {
        self.known(rule.from)?;
        self.known(rule.to)?;
        let row = self.rules.len();
        let Gap { least, most } = rule.gap;
        if rule.from == rule.to {
            Err(Refused(5, rule.from))
        } else if least < -FARTHEST || most < least || most > FARTHEST {
            Err(Refused(6, NOWHERE))
        } else if row >= MOST_RULES {
            Err(Refused(7, NOWHERE))
        } else if self.views.len().saturating_add(wanted) > MOST_VIEWS {
            Err(CROWDED)
        } else {
            Ok(row as u8)
        }
    }

    fn known(&self, event: u8) -> Result<&Event, Fault> {
        self.events.get(usize::from(event)).ok_or(Refused(4, event))
    }

    // The views that the rule needs and that are not there yet.
    fn wanted(&self, rule: Rule) -> [Option<View>; 2] {
        [
            self.wanted_view(rule.from, rule.to),
            self.wanted_view(rule.to, rule.from),
        ]
    }

    // The view of an event in the room of another one, where that is another room and has no view of it yet.
    fn wanted_view(&self, event: u8, other: u8) -> Option<View> {
        let home = self.known(event).ok()?.room;
        let room = self.known(other).ok()?.room;
        let view = View { event, room };
        (room != home && !self.views.iter().any(|made| *made == view)).then_some(view)
    }
}
