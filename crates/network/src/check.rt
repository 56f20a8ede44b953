// Whether a choice of minutes is a schedule.
ghost use Rattle.std.specs.Prelude.{◌≡◌, ◌≤◌, not, ◌↔◌, length, IsOk, All, slice_index};
ghost use Rattle.std.specs.List.{position, zip};
ghost use Rattle.std.specs.Result.{result_err};
ghost use Rattle.network.specs.Checks.{check_refusal, has_minute, allows, kept};
ghost use Rattle.network.specs.Drafts.{net};
ghost use Rattle.network.specs.Nets.{count, Schedule};
ghost use Rattle.network.specs.Rows.{Known};

use crate::draft::Draft;
use crate::tables::{Event, Rule};
use bounds::fault::PlanFault;
use bounds::gap::Gap;

// The first places of the list are the minutes of the events, in their order.
pub fn check(draft: &Draft, minutes: &[u32]) -> Result<(), PlanFault>
    ensures value { result_err result ≡ check_refusal (net draft.now) minutes.now }
    ensures exactly { IsOk result ↔ ((count (net draft.now) ≤ length minutes.now) × Schedule (net draft.now) (λ x. slice_index minutes.now x)) }
{
    let events = draft.events();
    if minutes.len() < events.len() {
        return Err(PlanFault::TooFewPlaces);
    }
    if let Some(event) = first_outside(events, minutes) {
        return Err(PlanFault::OutsideWindow(event as u8));
    }
    if let Some(rule) = first_broken(draft.rules(), minutes) {
        return Err(PlanFault::RuleBroken(rule as u8));
    }
    Ok(())
}

fn first_outside(events: &[Event], minutes: &[u32]) -> Option<usize>
    ensures { result ≡ position (λ p. not (has_minute p.0.window p.1)) (zip events.now minutes.now) }
{
    events
        .iter()
        .zip(minutes)
        .position(|(event, minute)| !event.window.contains(*minute))
}

fn first_broken(rules: &[Rule], minutes: &[u32]) -> Option<usize>
    requires { All (Known (length minutes.now)) rules.now }
    ensures { result ≡ position (λ r. not (kept minutes.now 0 r)) rules.now }
{
    rules.iter().position(|rule| !holds(rule, minutes))
}

fn holds(rule: &Rule, minutes: &[u32]) -> bool
    requires { Known (length minutes.now) rule.now }
    ensures { result ≡ kept minutes.now 0 rule.now }
{
    let from = i64::from(minutes[usize::from(rule.from)]);
    let to = i64::from(minutes[usize::from(rule.to)]);
    allows(rule.gap, to - from)
}

// Kept: no method of Gap, which would be public in bounds for one caller; and no range of i64 (tried), since with its
// `contains` the proof didn't close.
fn allows(gap: Gap, minutes: i64) -> bool
    ensures { result ≡ allows gap minutes }
{
    i64::from(gap.least) <= minutes && minutes <= i64::from(gap.most)
}
