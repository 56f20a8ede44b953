// Events and rules, what a schedule of them is, and the windows that schedules leave.
#![tactic(auto)]

pub mod check;
pub mod draft;
pub mod revise;
pub mod solve;
pub mod tables;
pub mod worked;
