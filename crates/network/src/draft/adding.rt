// Making a draft, and entering events and rules.
ghost use Rattle.std.specs.Prelude.{◌≡◌, ◌<◌, ◌≤◌, true, length, IfOk, if◌then◌else◌, None as Nothing, ◌≢◌};
ghost use Rattle.std.specs.Result.{result_err};
ghost use Rattle.network.specs.Drafts.{plan};
ghost use Rattle.network.specs.Plans.{empty, event_answer, event_plan, rule_answer, rule_plan, first_no, viewing, needed, with_view, with_views, rule_questions, with_rule};
ghost use Rattle.network.specs.Rows.{Known, room_of, shows, spans, abroad};

use super::table::Table;
use super::{Draft, MOST_VIEWS};
use crate::tables::{Event, Rule, View};
use bounds::fault::PlanFault;
use bounds::gap::Gap;
use std::alloc::{AllocError, Global};

impl Draft {
    pub fn new(heap: Global) -> Result<Draft, AllocError>
        ensures { IfOk result (λ d. plan d ≡ empty) }
    {
        Ok(Draft {
            events: Table::new(heap)?,
            rules: Table::new(heap)?,
            views: Table::new(heap)?,
        })
    }

    // The event's number, or the first question that it fails.
    pub fn add_event(&mut self, event: Event) -> Result<u8, PlanFault>
        ensures value { result ≡ event_answer (plan self.old) event }
        ensures after { plan self.new ≡ event_plan (plan self.old) event }
    {
        if event.room >= 8 {
            return Err(PlanFault::NoRoom(event.room));
        }
        if !event.window.opens() {
            return Err(PlanFault::BadWindow);
        }
        if self.events.is_full() {
            return Err(PlanFault::TooManyEvents);
        }
        let number = self.events().len() as u8;
        self.events.push(event);
        Ok(number)
    }

    // The rule's number, or the first question that it fails. A rule between two rooms brings the views that it needs.
    pub fn add_rule(&mut self, rule: Rule) -> Result<u8, PlanFault>
        ensures value { result ≡ rule_answer (plan self.old) rule }
        ensures after { plan self.new ≡ rule_plan (plan self.old) rule }
    {
        self.ask_rule(rule)?;
        let number = self.rules().len() as u8;
        self.enter_rule(rule);
        Ok(number)
    }

    // The first question that the rule fails.
    fn ask_rule(&self, rule: Rule) -> Result<(), PlanFault>
        ensures { result_err result ≡ first_no (rule_questions (plan self.now) rule) }
    {
        let events = self.events().len();
        if usize::from(rule.from) >= events {
            return Err(PlanFault::NoEvent(rule.from));
        }
        if usize::from(rule.to) >= events {
            return Err(PlanFault::NoEvent(rule.to));
        }
        if rule.from == rule.to {
            return Err(PlanFault::SameEvent(rule.from));
        }
        if !spans(rule.gap) {
            return Err(PlanFault::BadGap);
        }
        if self.rules.is_full() {
            return Err(PlanFault::TooManyRules);
        }
        if self.views_with(rule) > MOST_VIEWS {
            return Err(PlanFault::TooManyViews);
        }
        Ok(())
    }

    // The views that a rule between two rooms needs: of its from event, then of its to event.
    fn needed(&self, rule: Rule) -> Option<(View, View)>
        requires known { Known (length (plan self.now).events) rule }
        ensures { result ≡ needed (plan self.now) rule }
    {
        let from_room = self.room_of(rule.from);
        let to_room = self.room_of(rule.to);
        if from_room == to_room {
            return None;
        }
        let there = View {
            event: rule.from,
            room: to_room,
        };
        let back = View {
            event: rule.to,
            room: from_room,
        };
        Some((there, back))
    }

    fn room_of(&self, event: u8) -> u8
        requires { event < length (plan self.now).events }
        ensures { result ≡ room_of (plan self.now).events event }
    {
        self.events()[usize::from(event)].room
    }

    // How many views there are with those that the rule needs.
    fn views_with(&self, rule: Rule) -> usize
        requires known { Known (length (plan self.now).events) rule }
        requires apart { rule.from ≢ rule.to }
        ensures { result ≡ length (with_views (plan self.now) rule) }
    {
        match self.needed(rule) {
            None => self.views().len(),
            Some((there, back)) => self.views().len() + self.missing(there) + self.missing(back),
        }
    }

    // 1 if the view is not there yet, else 0.
    fn missing(&self, view: View) -> usize
        ensures { result ≡ (if shows (plan self.now).views view.event view.room then 0 else 1) }
    {
        usize::from(!self.shows(view))
    }

    // Whether the view is there. (By `any`: the library's `contains` looks at groups of rows, which took twice the time.)
    fn shows(&self, view: View) -> bool
        ensures { result ≡ shows (plan self.now).views view.event view.room }
    {
        self.views().iter().any(|shown| *shown == view)
    }

    // Enters a rule that passes all questions.
    fn enter_rule(&mut self, rule: Rule)
        requires { first_no (rule_questions (plan self.old) rule) ≡ Nothing }
        ensures { plan self.new ≡ with_rule (plan self.old) rule }
    {
        self.show_border(rule);
        self.rules.push(rule);
    }

    // Makes the views that the rule needs.
    fn show_border(&mut self, rule: Rule)
        requires { first_no (rule_questions (plan self.old) rule) ≡ Nothing }
        ensures { plan self.new ≡ viewing (plan self.old) (with_views (plan self.old) rule) }
    {
        if let Some((there, back)) = self.needed(rule) {
            self.show(there);
            self.show(back);
        }
    }

    // Makes the view unless it is there.
    fn show(&mut self, view: View)
        requires abroad { abroad (plan self.old).events view ≡ true }
        requires fits { length (with_view (plan self.old).views view.event view.room) ≤ 64 }
        ensures { plan self.new ≡ viewing (plan self.old) (with_view (plan self.old).views view.event view.room) }
    {
        if !self.shows(view) {
            self.views.push(view);
        }
    }
}

// Whether the gap's bounds are in order, and no farther than the last minute either way.
// Kept: no method of Gap, which would be public in bounds, where only an entry asks it.
fn spans(gap: Gap) -> bool
    ensures { result ≡ spans gap }
{
    -527_040 <= gap.least && gap.least <= gap.most && gap.most <= 527_040
}
