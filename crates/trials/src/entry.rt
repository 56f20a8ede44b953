// A row that is to be entered.
use network::tables::{Event, Rule};

#[derive(Clone, Copy)]
pub enum Entry {
    Event(Event),
    Rule(Rule),
}
