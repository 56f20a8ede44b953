// Writing the day down: its events, its rules, and two slips of the pen.
use crate::clock::Span;
use crate::day::{DayEvent, SHELVING, events};
use crate::refusal::Refused;
use crate::room::Room;
use crate::rules::{LONGEST_WAIT, RULES};
use crate::stop::Stop;
use bounds::fault::PlanFault;
use network::draft::Draft;
use network::tables::{Event, Window};
use std::alloc::Global;
use std::io;

// The whole day, with the longest wait of the last lot as a parameter: a draft only takes entries, so
// tightening a rule means writing the day down again.
pub fn draft_day(heap: Global, rye_wait: i32) -> Result<Draft, Stop> {
    let mut draft = Draft::new(heap)?;
    enter_day(&mut draft, rye_wait)?;
    Ok(draft)
}

fn enter_day(draft: &mut Draft, rye_wait: i32) -> Result<(), PlanFault> {
    for event in events() {
        draft.add_event(event.into())?;
    }
    for rule in &RULES {
        draft.add_rule(rule.entry(rye_wait))?;
    }
    Ok(())
}

pub fn show_day(rt: &impl Print) -> io::Result<()> {
    for event in events() {
        show_event(rt, event, event.given())?;
    }
    println!(rt; "The rules, where the longest wait is {LONGEST_WAIT} minutes:")?;
    for rule in RULES.iter().filter(|rule| rule.is_told()) {
        println!(rt; "  {rule}")?;
    }
    Ok(())
}

// An event of the day with a window, the given one or the one that was found.
pub fn show_event(rt: &impl Print, event: DayEvent, window: Window) -> io::Result<()> {
    println!(rt;
        "  {:<12}  {:<16}  {:<9}  {}",
        event.lot,
        event.step,
        event.room(),
        Span(window)
    )
}

// Two entries that go wrong at the mountain rye's last step.
pub fn show_slips(rt: &impl Print, draft: &mut Draft) -> Result<(), Stop> {
    println!(rt; "\nA slip of the pen puts the mountain rye's shelf into room 9:")?;
    let no_room = Event {
        room: 9,
        window: SHELVING,
    };
    show_slip(rt, draft, no_room)?;
    println!(rt; "Another one swaps the two ends of its window:")?;
    let swapped = Event {
        room: Room::ColdRoom.into(),
        window: Window {
            earliest: SHELVING.latest,
            latest: SHELVING.earliest,
        },
    };
    show_slip(rt, draft, swapped)?;
    show_counts(rt, draft)?;
    Ok(())
}

// A refused entry leaves the draft as it was, so the day can go on.
fn show_slip(rt: &impl Print, draft: &mut Draft, slip: Event) -> Result<(), Stop> {
    let Err(fault) = draft.add_event(slip) else {
        return Err(Stop::Accepted);
    };
    println!(rt; "  {}", Refused(fault))?;
    Ok(())
}

pub fn show_counts(rt: &impl Print, draft: &Draft) -> io::Result<()> {
    let events = draft.events().len();
    let rules = draft.rules().len();
    let views = draft.views().len();
    println!(rt;
        "The draft holds {events} events and {rules} rules.\nA rule between two rooms shows each room the other's event, which makes {views} views."
    )
}
