// A naive check of a choice of minutes.
use crate::answer::Fault::{self, Refused};
use crate::answer::NOWHERE;
use crate::book::Book;
use network::tables::{Event, Rule};

// The first event that lies outside its given window, else the first rule that does not hold.
pub fn naive(book: &Book, minutes: &[u32]) -> Result<(), Fault> {
    if minutes.len() < book.events.len() {
        return Err(Refused(17, NOWHERE));
    }
    let mut choices = book.events.iter().zip(minutes);
    if let Some(event) = choices.position(|(event, minute)| !allows(event, *minute)) {
        return Err(Refused(19, place_of(event)));
    }
    if let Some(rule) = book.rules.iter().position(|rule| !keeps(rule, minutes)) {
        return Err(Refused(20, place_of(rule)));
    }
    Ok(())
}

fn allows(event: &Event, minute: u32) -> bool {
    (event.window.earliest..=event.window.latest).contains(&minute)
}

fn keeps(rule: &Rule, minutes: &[u32]) -> bool {
    let from = minutes.get(usize::from(rule.from)).copied();
    let to = minutes.get(usize::from(rule.to)).copied();
    let (Some(from), Some(to)) = (from, to) else {
        return false;
    };
    let soonest = i64::from(from) + i64::from(rule.gap.least);
    let last = i64::from(from) + i64::from(rule.gap.most);
    (soonest..=last).contains(&i64::from(to))
}

// Kept: no `as u8`, since no type bounds the book's rows. A row that no byte holds would be told as no place, which the
// library never tells here, and so would be found to differ.
fn place_of(row: usize) -> u8 {
    u8::try_from(row).unwrap_or(NOWHERE)
}
