// One rule made tighter, hour by hour, until no schedule is left.
use crate::clock::Span;
use crate::drafting::draft_day;
use crate::lot::Lot;
use crate::refusal::Refused;
use crate::rules::LONGEST_WAIT;
use crate::solving::Solved;
use crate::step::Step;
use crate::stop::Stop;
use std::alloc::Global;
use std::io;

// The shortest of the longest waits in the intake room that are tried for the last lot, in minutes.
const SHORTEST_TRIED: i32 = 360;

pub fn show_tightening(rt: &impl Print, heap: Global) -> Result<(), Stop> {
    println!(rt; "\nHow long must the mountain rye be allowed to wait for the drier?")?;
    for wait in (SHORTEST_TRIED..=LONGEST_WAIT).rev().step_by(60) {
        println!(rt; "At most {wait} minutes:")?;
        let draft = draft_day(heap, wait)?;
        match Solved::of(&draft) {
            Ok(solved) => show_drier(rt, &solved)?,
            Err(fault) => {
                println!(rt; "  {}", Refused(fault))?;
                return Ok(());
            }
        }
    }
    Err(Stop::Accepted)
}

fn show_drier(rt: &impl Print, solved: &Solved) -> io::Result<()> {
    let window = solved.window(Lot::Rye.at(Step::Dries));
    println!(rt; "  It enters the drier {}.", Span(window))
}
