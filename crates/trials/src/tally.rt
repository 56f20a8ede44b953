// What the random plans were like and how they came out.
use crate::answer::{Answer, Fault};
use crate::book::Book;
use std::fmt;

// From so many events on a plan counts as large.
const LARGE: usize = 48;

#[derive(Default, Drop)]
pub struct Tally {
    pub plans: u32,
    scheduled: u32,
    crossed: u32,
    cycles: u32,
    large_scheduled: u32,
    large_barred: u32,
    most_rounds: u32,
    refused: u32,
    crowded: u32,
}

impl Tally {
    // A plan, and what solving it answered.
    pub fn add(&mut self, book: &Book, answer: Answer) {
        let large = u32::from(book.events.len() >= LARGE);
        self.plans = self.plans.saturating_add(1);
        self.refused = self.refused.saturating_add(book.refused);
        self.crowded = self.crowded.saturating_add(book.crowded);
        match answer {
            Ok(rounds) => {
                self.scheduled = self.scheduled.saturating_add(1);
                self.large_scheduled = self.large_scheduled.saturating_add(large);
                self.most_rounds = self.most_rounds.max(u32::from(rounds));
            }
            Err(Fault::Barred(_, cause)) => {
                let barred = match cause {
                    2 => &mut self.cycles,
                    _ => &mut self.crossed,
                };
                *barred = barred.saturating_add(1);
                self.large_barred = self.large_barred.saturating_add(large);
            }
            Err(_) => {}
        }
    }
}

impl fmt::Display for Tally {
    fn fmt<W: fmt::Write>(&self, f: &mut fmt::Formatter<W>) -> fmt::Result {
        let lines = [
            ("random plans", self.plans),
            ("with a schedule", self.scheduled),
            ("without, by cause 1", self.crossed),
            ("without, by cause 2", self.cycles),
            (
                "of 48 events or more, with a schedule",
                self.large_scheduled,
            ),
            ("of 48 events or more, without", self.large_barred),
            ("most rounds", self.most_rounds),
            ("entries refused", self.refused),
            ("of these for too many views", self.crowded),
        ];
        for (words, count) in lines {
            writeln!(f, "{words}: {count}")?;
        }
        Ok(())
    }
}
