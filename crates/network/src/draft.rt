// A plan that is being written: events, rules, and the views that rules between rooms need.
ghost use Rattle.std.specs.Prelude.{length};
ghost use Rattle.network.specs.Rows.{Pass, placed, joins, abroad, bordered};

use self::table::Table;
use crate::tables::{Event, Rule, View};

pub mod adding;
pub mod reading;
mod table;

pub(crate) const MOST_EVENTS: usize = 64;

const MOST_RULES: usize = 128;

const MOST_VIEWS: usize = 64;

// Kept: ghost fields, and no Model, which would hide from callers what is true of every draft.
#[derive(Drop)]
pub struct Draft {
    events: Table<Event, MOST_EVENTS>,
    rules: Table<Rule, MOST_RULES>,
    views: Table<View, MOST_VIEWS>,
    ghost events_pass: { Pass placed events.rows.items },
    ghost rules_pass: { Pass (joins (length events.rows.items)) rules.rows.items },
    ghost views_pass: { Pass (abroad events.rows.items) views.rows.items },
    ghost borders_pass: { Pass (bordered events.rows.items views.rows.items) rules.rows.items },
}
