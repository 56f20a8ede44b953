// Why a plan is barred, and at which event.
ghost use Rattle.std.specs.Prelude.{◌≡◌};
ghost use Rattle.bounds.specs.Marks.{cause_number};

#[derive(Clone, Copy, Debug, PartialEq, Eq)]
pub enum Cause {
    // a carried end passed the other end of its event
    Crossed,
    // a carried end came over as many rules as there are events, so some event bounds itself away
    Cycle,
}

impl Cause {
    // Kept: named as a refusal's number is, and no From, whose call would not say that it is the number that is told.
    pub fn number(self) -> u8
        ensures { result ≡ cause_number self }
    {
        match self {
            Cause::Crossed => 1,
            Cause::Cycle => 2,
        }
    }
}

#[derive(Clone, Copy, Debug)]
pub struct Bar {
    pub cause: Cause,
    pub event: u8,
}
