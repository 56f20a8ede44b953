// The four steps of a lot's handling, in their order.
use std::fmt;

#[derive(Clone, Copy)]
pub enum Step {
    Arrives,
    Dries,
    Sealed,
    Shelved,
}

impl Step {
    pub const ALL: [Step; 4] = [Step::Arrives, Step::Dries, Step::Sealed, Step::Shelved];
}

impl fmt::Display for Step {
    fn fmt<W: fmt::Write>(&self, f: &mut fmt::Formatter<W>) -> fmt::Result {
        f.pad(match self {
            Step::Arrives => "arrives",
            Step::Dries => "enters the drier",
            Step::Sealed => "is sealed",
            Step::Shelved => "is shelved",
        })
    }
}
