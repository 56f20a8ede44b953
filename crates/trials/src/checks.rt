// The library's check held to the naive one, on choices of minutes that are right, nearly right and random.
use crate::answer::Fault::{self, Refused};
use crate::answer::checked;
use crate::list::PLACES;
use crate::naive::naive;
use crate::random::Random;
use crate::trial::Trial;
use crate::trouble::{Trouble, ensure};
use network::tables::{Event, Window};
use std::alloc::{AllocError, Global};

impl Trial {
    // In a plan with a schedule: all earliest minutes, all latest ones, and the earliest ones with one event moved out
    // of its given window.
    pub fn try_ends(&self, list: &[Window], random: &mut Random) -> Result<(), Trouble> {
        // Kept: no `as u8`, since no type bounds the book's rows.
        let event = random.byte_below(u8::try_from(self.book.events.len()).unwrap_or(0));
        let earliest: Vec<u32> = list
            .iter()
            .map(|window| window.earliest)
            .collect(self.heap)?;
        let latest: Vec<u32> = list.iter().map(|window| window.latest).collect(self.heap)?;
        self.expect_both(earliest.as_slice(), Ok(()))?;
        self.expect_both(latest.as_slice(), Ok(()))?;
        self.try_outside(earliest, event)
    }

    fn try_outside(&self, mut minutes: Vec<u32>, event: u8) -> Result<(), Trouble> {
        let Some(row) = self.book.events.get(usize::from(event)) else {
            return Ok(());
        };
        let given = row.window;
        // Minute 0 has none before it, so there the minute after the window stands in for it.
        let after = given.latest.saturating_add(1);
        let before = given.earliest.checked_sub(1).unwrap_or(after);
        for minute in [after, before] {
            if let Some(place) = minutes.get_mut(usize::from(event)) {
                *place = minute;
            }
            self.expect_both(minutes.as_slice(), Err(Refused(19, event)))?;
        }
        Ok(())
    }

    fn expect_both(&self, minutes: &[u32], answer: Result<(), Fault>) -> Result<(), Trouble> {
        ensure(
            checked(&self.draft, minutes) == answer && naive(&self.book, minutes) == answer,
            "check has another answer than expected at the ends of the windows",
        )
    }

    // In any plan: random minutes with a place too few, and with places to spare.
    pub fn try_choices(&self, random: &mut Random) -> Result<(), Trouble> {
        for _ in 0..4 {
            let mut minutes = draw_minutes(self.heap, self.book.events.as_slice(), random)?;
            let few = minutes.len().saturating_sub(1);
            if let Some(few) = minutes.as_slice().get(0..few) {
                self.compare_checks(few)?;
            }
            minutes.resize(PLACES, 0)?;
            self.compare_checks(minutes.as_slice())?;
        }
        Ok(())
    }

    fn compare_checks(&self, minutes: &[u32]) -> Result<(), Trouble> {
        ensure(
            checked(&self.draft, minutes) == naive(&self.book, minutes),
            "check has another answer than the naive check",
        )
    }
}

fn draw_minutes(
    heap: Global,
    events: &[Event],
    random: &mut Random,
) -> Result<Vec<u32>, AllocError> {
    let astray = random.one_in(3);
    events
        .iter()
        .map(|event| draw_minute(event, astray, random))
        .collect(heap)
}

// A minute within the given window, or now and then anywhere.
fn draw_minute(event: &Event, astray: bool, random: &mut Random) -> u32 {
    let given = event.window;
    let within = random.up_to(given.latest.saturating_sub(given.earliest));
    if astray && random.one_in(16) {
        random.bits() % 600_000
    } else {
        given.earliest.saturating_add(within)
    }
}
