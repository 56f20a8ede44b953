// Why the tour ends before its last line. Nothing that it does on purpose comes here: a refusal that it
// means to show is printed where it comes.
use bounds::fault::PlanFault;
use std::alloc::AllocError;
use std::io;

#[derive(Debug, Drop)]
pub enum Stop {
    Memory,
    Output,
    // an entry or a plan was refused that the tour counts on
    Refused(PlanFault),
    // a plan was accepted that the tour meant to be refused
    Accepted,
}

// Kept: From by hand. A derived one (tried) holds the io::Error, whose text takes one more C function on trust.
impl From<AllocError> for Stop {
    fn from(_e: AllocError) -> Stop {
        Stop::Memory
    }
}

impl From<io::Error> for Stop {
    fn from(_e: io::Error) -> Stop {
        Stop::Output
    }
}

impl From<PlanFault> for Stop {
    fn from(fault: PlanFault) -> Stop {
        Stop::Refused(fault)
    }
}
