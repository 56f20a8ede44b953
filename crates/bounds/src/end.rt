// An end of a window: a minute, and its links, the number of rules that it was carried over.
#[derive(Clone, Copy)]
pub struct End {
    pub minute: u32,
    pub links: u8,
}

// The two ends of one window.
// Kept: no generic pair with a window of minutes: the two share no method, and a map for two conversions is no shorter.
#[derive(Clone, Copy)]
pub struct Ends {
    pub earliest: End,
    pub latest: End,
}

// An end just carried over a rule: its minute may still lie before 0 or past any window.
// Kept: a type of its own, since a generic End over its two numbers would have no method that serves both.
#[derive(Clone, Copy)]
pub struct Carried {
    pub minute: i64,
    pub links: u16,
}
