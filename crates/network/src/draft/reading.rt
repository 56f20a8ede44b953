// What a draft holds.
ghost use Rattle.std.specs.Prelude.{◌≡◌};
ghost use Rattle.network.specs.Drafts.{plan};

use super::Draft;
use crate::tables::{Event, Rule, View};

// Kept: three readers, since one for all tables would still need each table's type and name.
impl Draft {
    pub fn events(&self) -> &[Event]
        ensures { result.now ≡ (plan self.now).events }
    {
        self.events.rows()
    }

    pub fn rules(&self) -> &[Rule]
        ensures { result.now ≡ (plan self.now).rules }
    {
        self.rules.rows()
    }

    pub fn views(&self) -> &[View]
        ensures { result.now ≡ (plan self.now).views }
    {
        self.views.rows()
    }
}
