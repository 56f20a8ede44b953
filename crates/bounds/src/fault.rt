// The refusals: the line's in a case of the plan's, the plan's in a case of the stream's.
ghost use Rattle.std.specs.Prelude.{◌≡◌};
ghost use Rattle.bounds.specs.Marks.{told, line_mark, plan_mark, stream_mark, barring};
ghost use Rattle.bounds.specs.declared.fault.Mark.{Mark as MarkOf};

use crate::bar::Bar;

#[derive(Clone, Copy, Debug)]
pub enum LineFault {
    // no place is free for a letter of this view
    Full(u8),
    // no letter waits
    Nothing,
    // a letter waits
    Waiting,
}

#[derive(Clone, Copy, Debug)]
pub enum PlanFault {
    NoRoom(u8),
    BadWindow,
    TooManyEvents,
    NoEvent(u8),
    SameEvent(u8),
    BadGap,
    TooManyRules,
    TooManyViews,
    // the plan is barred at this event
    Barred(u8),
    // nothing of this room is unsent
    NothingUnsent(u8),
    // this view is unsent
    Unsent(u8),
    // this room is unworked
    Unworked(u8),
    NotSettled,
    TooFewPlaces,
    NoSchedule(Bar),
    // the minute of this event lies outside its given window
    OutsideWindow(u8),
    // this rule does not hold
    RuleBroken(u8),
    Line(LineFault),
}

// A bar tells that there is no schedule.
impl From<Bar> for PlanFault {
    ghost from_gives = { λ bar fault. fault ≡ barring bar };

    fn from(bar: Bar) -> PlanFault {
        Self::NoSchedule(bar)
    }
}

// The place of a case that holds a byte is the command's byte.
#[derive(Clone, Copy, Debug)]
pub enum StreamFault {
    UnknownCommand(u8),
    MissingOperands(u8),
    WrongState(u8),
    Plan(PlanFault),
}

// How a refusal is told: the three numbers that every refusal has.
#[derive(Clone, Copy)]
pub struct Mark {
    pub number: u8,
    pub layer: u8,
    pub place: u8,
}

// Kept: layers are numbers by the specification.
const STREAM: u8 = 1;

const PLAN: u8 = 2;

const LINE: u8 = 3;

// The place where none stands.
// Kept: 255, and no Option, since the specification gives every refusal three numbers.
const NO_PLACE: u8 = 255;

fn told(layer: u8, number: u8, place: u8) -> Mark
    ensures { result ≡ told layer number place }
{
    Mark {
        number,
        layer,
        place,
    }
}

// What every refusal answers of itself.
pub trait Refusal {
    ghost mark: { Self → MarkOf };

    fn mark(&self) -> Mark
        ensures { result ≡ mark self.now };

    fn number(&self) -> u8
        ensures { result ≡ (mark self.now).number }
    {
        self.mark().number
    }

    fn layer(&self) -> u8
        ensures { result ≡ (mark self.now).layer }
    {
        self.mark().layer
    }

    fn place(&self) -> u8
        ensures { result ≡ (mark self.now).place }
    {
        self.mark().place
    }
}

impl Refusal for LineFault {
    ghost mark = { line_mark };

    fn mark(&self) -> Mark {
        match self {
            LineFault::Full(view) => told(LINE, 11, *view),
            LineFault::Nothing => told(LINE, 12, NO_PLACE),
            LineFault::Waiting => told(LINE, 14, NO_PLACE),
        }
    }
}

impl Refusal for PlanFault {
    ghost mark = { plan_mark };

    fn mark(&self) -> Mark {
        match self {
            PlanFault::NoRoom(room) => told(PLAN, 1, *room),
            PlanFault::BadWindow => told(PLAN, 2, NO_PLACE),
            PlanFault::TooManyEvents => told(PLAN, 3, NO_PLACE),
            PlanFault::NoEvent(event) => told(PLAN, 4, *event),
            PlanFault::SameEvent(event) => told(PLAN, 5, *event),
            PlanFault::BadGap => told(PLAN, 6, NO_PLACE),
            PlanFault::TooManyRules => told(PLAN, 7, NO_PLACE),
            PlanFault::TooManyViews => told(PLAN, 8, NO_PLACE),
            PlanFault::Barred(event) => told(PLAN, 9, *event),
            PlanFault::NothingUnsent(room) => told(PLAN, 10, *room),
            PlanFault::Unsent(view) => told(PLAN, 13, *view),
            PlanFault::Unworked(room) => told(PLAN, 15, *room),
            PlanFault::NotSettled => told(PLAN, 16, NO_PLACE),
            PlanFault::TooFewPlaces => told(PLAN, 17, NO_PLACE),
            PlanFault::NoSchedule(bar) => told(PLAN, 18, bar.event),
            PlanFault::OutsideWindow(event) => told(PLAN, 19, *event),
            PlanFault::RuleBroken(rule) => told(PLAN, 20, *rule),
            PlanFault::Line(fault) => fault.mark(),
        }
    }
}

impl Refusal for StreamFault {
    ghost mark = { stream_mark };

    fn mark(&self) -> Mark {
        match self {
            StreamFault::UnknownCommand(byte) => told(STREAM, 21, *byte),
            StreamFault::MissingOperands(byte) => told(STREAM, 22, *byte),
            StreamFault::WrongState(byte) => told(STREAM, 23, *byte),
            StreamFault::Plan(fault) => fault.mark(),
        }
    }
}
