// Choosing a minute for each event.
use crate::clock::Clock;
use crate::day::{DayEvent, EVENTS, events};
use crate::lot::Lot;
use crate::refusal::Refused;
use crate::solving::Solved;
use crate::step::Step;
use network::check::check;
use network::draft::Draft;
use std::io;

type Minutes = [u32; EVENTS];

// All earliest minutes together make a schedule, and so do all latest ones. Minutes from within the windows
// need not: a window says only that some schedule has the minute.
pub fn show_choices(rt: &impl Print, draft: &Draft, solved: &Solved) -> io::Result<()> {
    let earliest = solved.windows.map(|window| window.earliest);
    let latest = solved.windows.map(|window| window.latest);
    let sealed = solved.window(Lot::Emmer.at(Step::Sealed)).earliest;
    let arrives = solved.window(Lot::Emmer.at(Step::Arrives)).earliest;
    let choices = [
        ("\nEvery lot as early as it can be:", earliest),
        ("Every lot as late as it can be:", latest),
        (
            "As early as can be, but the wild lupin enters the drier 10 minutes after the emmer wheat is sealed:",
            moved(
                earliest,
                Lot::Lupin.at(Step::Dries),
                sealed.saturating_add(10),
            ),
        ),
        (
            "As early as can be, but the emmer wheat arrives half an hour before the van can bring it:",
            moved(
                earliest,
                Lot::Emmer.at(Step::Arrives),
                arrives.saturating_sub(30),
            ),
        ),
    ];
    for (words, minutes) in &choices {
        println!(rt; "{words}")?;
        show_check(rt, draft, minutes)?;
    }
    Ok(())
}

// The same choice, but for the minute of one event.
fn moved(mut minutes: Minutes, event: DayEvent, minute: u32) -> Minutes {
    minutes[event.index()] = minute;
    minutes
}

fn show_check(rt: &impl Print, draft: &Draft, minutes: &Minutes) -> io::Result<()> {
    match check(draft, minutes) {
        Ok(()) => show_minutes(rt, minutes),
        Err(fault) => println!(rt; "  {}", Refused(fault)),
    }
}

// The minutes of an accepted choice, so that a reader can hold them to the windows.
fn show_minutes(rt: &impl Print, minutes: &Minutes) -> io::Result<()> {
    println!(rt; "  This is a schedule.")?;
    for (event, minute) in events().iter().zip(minutes) {
        println!(rt;
            "    {:<12}  {:<16}  {}",
            event.lot,
            event.step,
            Clock(*minute)
        )?;
    }
    Ok(())
}
