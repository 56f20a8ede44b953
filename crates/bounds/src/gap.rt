// The minutes that a rule allows from its one event to its other: at least `least`, at most `most`.
#[derive(Clone, Copy, PartialEq, Eq)]
pub struct Gap {
    pub least: i32,
    pub most: i32,
}

// Which of its two events a rule carries an end to: back to its from event, or ahead to its to event.
#[derive(Clone, Copy)]
pub enum Way {
    Back,
    Ahead,
}

// A gap taken on one of its ways: what an end is carried over, from the one event to the other.
#[derive(Clone, Copy)]
pub struct Passage {
    pub gap: Gap,
    pub way: Way,
}
