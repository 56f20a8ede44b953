// Cases worked out by hand: what is done to a draft, and what ought to come of it.
use crate::answer::{Answer, Fault, checked, enter, solved};
use crate::entry::Entry;
use crate::list::{holds_just, unwritten};
use crate::trouble::{Trouble, ensure};
use bounds::gap::Gap;
use network::draft::Draft;
use network::tables::{Event, Rule, Window};
use std::alloc::{AllocError, Global};

pub const WIDEST: Gap = Gap {
    least: -527_040,
    most: 527_040,
};

// An entry as a table writes it.
// Kept: beside Entry, since a constant calls no function, and the library's rows in full would bury the numbers.
#[derive(Clone, Copy)]
pub enum Row {
    // a room, an earliest and a latest minute
    Event(u8, u32, u32),
    // from, to and the gap between them
    Rule(u8, u8, Gap),
}

impl From<Row> for Entry {
    fn from(row: Row) -> Entry {
        match row {
            Row::Event(room, earliest, latest) => {
                Entry::Event(Event {
                    room,
                    window: Window { earliest, latest },
                })
            }
            Row::Rule(from, to, gap) => Entry::Rule(Rule { from, to, gap }),
        }
    }
}

// Kept: as data the cases stand in tables that show their numbers alone; as closures each would be a call with `?`.
#[derive(Clone, Copy)]
pub enum Act {
    // an entry, and what it answers
    Enter(Row, Answer),
    // entries that are all accepted
    Plan(&'static [Row]),
    // an entry made so many times, each time accepted
    Fill(u8, Row),
    // so many rules, from this event to that one and then each time between the next two, all accepted
    Pairs { times: u8, from: u8, to: u8 },
    // how many events, rules and views the draft holds now
    Holds(usize, usize, usize),
    // the draft solved to a list of so many places: what that answers, and the earliest and the latest minutes in the
    // first places, with nothing written past them
    Solve(usize, Answer, &'static [(u32, u32)]),
    // minutes for the events, and what the check answers
    Check(&'static [u32], Result<(), Fault>),
}

// The words say what ought to hold.
pub type Case = (Act, &'static str);

// How many cases passed.
// Kept: a running total, since a sum has to be proved to fit and nothing bounds the tables; a fold is no plainer.
pub fn play(heap: Global, tables: &[&[Case]]) -> Result<usize, Trouble> {
    let mut passed = 0usize;
    for table in tables {
        play_one(heap, table)?;
        passed = passed.saturating_add(table.len());
    }
    Ok(passed)
}

// The draft is empty at first.
fn play_one(heap: Global, table: &[Case]) -> Result<(), Trouble> {
    let mut draft = Draft::new(heap)?;
    for (act, words) in table {
        ensure(holds(heap, &mut draft, *act)?, words)?;
    }
    Ok(())
}

fn holds(heap: Global, draft: &mut Draft, act: Act) -> Result<bool, AllocError> {
    let held = match act {
        Act::Enter(row, answer) => enter(draft, Entry::from(row)) == answer,
        Act::Plan(rows) => rows.iter().all(|row| accepts(draft, *row)),
        Act::Fill(times, row) => (0..times).all(|_| accepts(draft, row)),
        Act::Pairs { times, from, to } => (0..times).all(|next| {
            accepts(
                draft,
                Row::Rule(from.saturating_add(next), to.saturating_add(next), WIDEST),
            )
        }),
        Act::Holds(events, rules, views) => {
            draft.events().len() == events
                && draft.rules().len() == rules
                && draft.views().len() == views
        }
        Act::Solve(places, answer, ends) => {
            let mut list = unwritten(heap, places)?;
            let windows = windows_of(heap, ends)?;
            solved(draft, list.as_mut_slice()) == answer
                && holds_just(list.as_slice(), windows.as_slice())
        }
        Act::Check(minutes, answer) => checked(draft, minutes) == answer,
    };
    Ok(held)
}

fn accepts(draft: &mut Draft, row: Row) -> bool {
    enter(draft, Entry::from(row)).is_ok()
}

fn windows_of(heap: Global, ends: &[(u32, u32)]) -> Result<Vec<Window>, AllocError> {
    ends.iter()
        .map(|&(earliest, latest)| Window { earliest, latest })
        .collect(heap)
}
