// Ends of windows, the two sides that compare and carry them, and the refusals of every layer.
#![tactic(auto)]

pub mod bar;
pub mod end;
pub mod fault;
pub mod gap;
pub mod narrow;
pub mod side;
