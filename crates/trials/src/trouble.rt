// Why the trials end before their last line.
use std::alloc::AllocError;
use std::io;

#[derive(Debug, Drop)]
pub enum Trouble {
    Memory,
    Output,
    // the library and the trials disagree, about what these words say
    Differs(&'static str),
}

// Kept: From by hand. A derived one (tried) holds the io::Error, whose text takes one more C function on trust.
impl From<AllocError> for Trouble {
    fn from(_e: AllocError) -> Trouble {
        Trouble::Memory
    }
}

impl From<io::Error> for Trouble {
    fn from(_e: io::Error) -> Trouble {
        Trouble::Output
    }
}

// The words say what ought to hold, or what differs where it does not.
pub fn ensure(holds: bool, words: &'static str) -> Result<(), Trouble> {
    if holds {
        Ok(())
    } else {
        Err(Trouble::Differs(words))
    }
}
