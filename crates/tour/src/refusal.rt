// A refusal in a curator's words, with the three numbers that every refusal has.
use crate::day::events;
use crate::rules::RULES;
use bounds::bar::Cause;
use bounds::fault::{Mark, PlanFault, Refusal};
use std::fmt;

// What the library refused.
#[derive(Clone, Copy)]
pub struct Refused(pub PlanFault);

impl fmt::Display for Refused {
    fn fmt<W: fmt::Write>(&self, f: &mut fmt::Formatter<W>) -> fmt::Result {
        let reason = Reason(self.0);
        let Mark {
            number,
            layer,
            place,
        } = self.0.mark();
        let place = Place(place);
        write!(
            f,
            "Refused: {reason}.\n  (number {number}, layer {layer}, place {place})"
        )?;
        write_place(f, self.0)
    }
}

// The place of a refusal that points at nothing.
// Kept: 255 by the specification, and a constant of the tour, since bounds keeps its own to itself.
const NO_PLACE: u8 = 255;

#[derive(Clone, Copy)]
struct Place(u8);

impl fmt::Display for Place {
    fn fmt<W: fmt::Write>(&self, f: &mut fmt::Formatter<W>) -> fmt::Result {
        match self.0 {
            NO_PLACE => write!(f, "{NO_PLACE}, which means no place"),
            place => write!(f, "{place}"),
        }
    }
}

// What the place stands for, where it stands for an event or a rule of the day.
fn write_place<W: fmt::Write>(f: &mut fmt::Formatter<W>, fault: PlanFault) -> fmt::Result {
    match fault {
        PlanFault::OutsideWindow(event) => write_event(f, event),
        PlanFault::RuleBroken(rule) => write_named(f, "The rule:", RULES.get(usize::from(rule))),
        PlanFault::NoSchedule(bar) => {
            write_event(f, bar.event)?;
            write_cause(f, bar.cause)
        }
        _ => Ok(()),
    }
}

fn write_event<W: fmt::Write>(f: &mut fmt::Formatter<W>, number: u8) -> fmt::Result {
    write_named(f, "The event: the", events().get(usize::from(number)))
}

// An event or a rule in words, if the number was one of the day's.
fn write_named<W: fmt::Write, T: fmt::Display>(
    f: &mut fmt::Formatter<W>,
    label: &str,
    named: Option<&T>,
) -> fmt::Result {
    match named {
        Some(named) => write!(f, "\n  {label} {named}."),
        None => Ok(()),
    }
}

fn write_cause<W: fmt::Write>(f: &mut fmt::Formatter<W>, cause: Cause) -> fmt::Result {
    let words = match cause {
        Cause::Crossed => "the rules push one end of its window past the other end",
        Cause::Cycle => "a chain of rules as long as the list of events pushes it away from itself",
    };
    write!(f, "\n  Cause {}: {words}.", cause.number())
}

// Why, in words.
#[derive(Clone, Copy)]
struct Reason(PlanFault);

impl fmt::Display for Reason {
    fn fmt<W: fmt::Write>(&self, f: &mut fmt::Formatter<W>) -> fmt::Result {
        f.write_str(match self.0 {
            PlanFault::NoRoom(_) => "there is no room of that number, since the rooms are 0 to 7",
            PlanFault::BadWindow =>
                "the window ends before it begins, or past the last minute of the year",
            PlanFault::TooManyEvents => "the draft is full of events",
            PlanFault::NoEvent(_) => "the rule names an event that is not in the draft",
            PlanFault::SameEvent(_) => "the rule leads from an event to itself",
            PlanFault::BadGap => "the rule's bounds are out of order or too far apart",
            PlanFault::TooManyRules => "the draft is full of rules",
            PlanFault::TooManyViews =>
                "the rooms would have to watch too many events of each other",
            PlanFault::TooFewPlaces => "the list is shorter than the list of events",
            PlanFault::NoSchedule(_) => "no choice of minutes keeps to all windows and rules",
            PlanFault::OutsideWindow(_) =>
                "a minute lies outside the window that was given for its event",
            PlanFault::RuleBroken(_) => "two minutes break a rule",
            _ => "the tour does not come by this one",
        })
    }
}
