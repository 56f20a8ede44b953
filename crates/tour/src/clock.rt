// A minute of the plan in a curator's words. The plan counts minutes from the start of its day 0.
use network::tables::Window;
use std::fmt;

pub const HOUR: u32 = 60;

pub const DAY: u32 = 1_440;

// A minute, shown as its day and its time of day.
#[derive(Clone, Copy)]
pub struct Clock(pub u32);

impl fmt::Display for Clock {
    fn fmt<W: fmt::Write>(&self, f: &mut fmt::Formatter<W>) -> fmt::Result {
        let day = self.0 / DAY;
        let hour = self.0 % DAY / HOUR;
        let minute = self.0 % HOUR;
        write!(f, "day {day} {hour:02}:{minute:02}")
    }
}

// A window, shown from its first minute to its last.
#[derive(Clone, Copy)]
pub struct Span(pub Window);

impl fmt::Display for Span {
    fn fmt<W: fmt::Write>(&self, f: &mut fmt::Formatter<W>) -> fmt::Result {
        write!(f, "{} to {}", Clock(self.0.earliest), Clock(self.0.latest))
    }
}
