// What the library answers, in one form for what it gives and for what is expected of it. Only this file calls the
// library with something to answer, so that its long promises are read in few places.
use crate::entry::Entry;
use bounds::fault::{Mark, PlanFault, Refusal};
use network::check::check;
use network::draft::Draft;
use network::solve::solve;
use network::tables::Window;

// The place of a refusal that points at nothing.
// Kept: 255 by the specification, and a number of the trials' own, so that a wrong one in the library differs.
pub const NOWHERE: u8 = 255;

// The layer of the plan's refusals.
// Kept: layers are numbers by the specification.
const PLAN_LAYER: u8 = 2;

// The number of the row for an entry and the number of rounds for a solution, or the refusal.
pub type Answer = Result<u8, Fault>;

// Kept: the specification fixes the numbers, so these are compared, and no case of the library's.
#[derive(Clone, Copy, PartialEq, Eq)]
pub enum Fault {
    // refused by the plan, with this number and at this place
    Refused(u8, u8),
    // barred at this event, by this cause
    Barred(u8, u8),
    // refused by a layer that the trials never come to, or barred at another event than is told
    Strange,
}

impl From<PlanFault> for Fault {
    fn from(fault: PlanFault) -> Fault {
        let Mark {
            number,
            layer,
            place,
        } = fault.mark();
        if layer != PLAN_LAYER {
            return Fault::Strange;
        }
        match fault {
            // A plan without a schedule is refused with 18 at the event of its bar.
            PlanFault::NoSchedule(bar) if number == 18 && place == bar.event => {
                Fault::Barred(bar.event, bar.cause.number())
            }
            PlanFault::NoSchedule(_) => Fault::Strange,
            _ => Fault::Refused(number, place),
        }
    }
}

pub fn enter(draft: &mut Draft, entry: Entry) -> Answer {
    let row = match entry {
        Entry::Event(event) => draft.add_event(event)?,
        Entry::Rule(rule) => draft.add_rule(rule)?,
    };
    Ok(row)
}

pub fn solved(draft: &Draft, windows: &mut [Window]) -> Answer {
    Ok(solve(draft, windows)?.rounds)
}

pub fn checked(draft: &Draft, minutes: &[u32]) -> Result<(), Fault> {
    Ok(check(draft, minutes)?)
}
