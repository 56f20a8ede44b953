// A seed bank's two days with three lots, from the first entry to the last schedule.
#![tactic(auto)]

use crate::choosing::show_choices;
use crate::drafting::{draft_day, show_counts, show_day, show_slips};
use crate::rules::LONGEST_WAIT;
use crate::solving::{Solved, show_windows};
use crate::stop::Stop;
use crate::tightening::show_tightening;
use std::alloc::Global;

mod choosing;
mod clock;
mod day;
mod drafting;
mod lot;
mod refusal;
mod room;
mod rules;
mod solving;
mod step;
mod stop;
mod tightening;

const OPENING: &str = "Three lots of seed come to the bank on day 100 and share one drier.
Each lot arrives, enters the drier, is sealed and is shelved.

The events, with the minutes that are given for them:";

const CLOSING: &str = "
The day was written down as events with given windows and as rules between them.
Two wrong entries were refused, and the draft stayed as it was.
The windows were narrowed to exactly the minutes that some schedule has.
The earliest and the latest minutes were schedules; two other choices were refused, each with its reason.
The mountain rye's wait was cut hour by hour, until the day could no longer be kept.";

fn main(rt: HostRuntime) -> Result<(), Stop> {
    let heap = rt.alloc();
    println!(rt; "{OPENING}")?;
    show_day(&rt)?;
    show_plan(&rt, heap)?;
    show_tightening(&rt, heap)?;
    println!(rt; "{CLOSING}")?;
    Ok(())
}

fn show_plan(rt: &impl Print, heap: Global) -> Result<(), Stop> {
    let mut draft = draft_day(heap, LONGEST_WAIT)?;
    show_counts(rt, &draft)?;
    show_slips(rt, &mut draft)?;
    let solved = Solved::of(&draft)?;
    show_windows(rt, &solved)?;
    show_choices(rt, &draft, &solved)?;
    Ok(())
}
