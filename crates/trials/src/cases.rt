// Small plans whose windows were worked out by hand, and choices of minutes for one of them.
use crate::answer::Fault::{Barred, Refused};
use crate::answer::NOWHERE;
use crate::hand::Act::{Check, Plan, Solve};
use crate::hand::Case;
use crate::hand::Row::{Event, Rule};
use crate::list::PLACES;
use bounds::gap::Gap;

const NONE: &[Case] = &[(Solve(PLACES, Ok(1), &[]), "no event: one round")];

const ALONE: &[Case] = &[
    (Plan(&[Event(0, 5, 5)]), "one event is accepted"),
    (
        Solve(PLACES, Ok(1), &[(5, 5)]),
        "one event: its window, one round",
    ),
];

const PAIR: &[Case] = &[
    (
        Plan(&[
            Event(0, 0, 100),
            Event(0, 0, 60),
            Rule(
                0,
                1,
                Gap {
                    least: 30,
                    most: 40,
                },
            ),
        ]),
        "a pair of events and a rule are accepted",
    ),
    (
        Solve(PLACES, Ok(2), &[(0, 30), (30, 60)]),
        "a pair: 0..30 and 30..60, two rounds",
    ),
    (
        Solve(1, Err(Refused(17, NOWHERE)), &[]),
        "one place is too few for two windows, and it is not written",
    ),
    (
        Solve(2, Ok(2), &[(0, 30), (30, 60)]),
        "two places are enough for two windows",
    ),
    (Check(&[0, 30], Ok(())), "minutes 0 and 30 are a schedule"),
    (
        Check(&[31, 60], Err(Refused(20, 0))),
        "minutes 31 and 60 break rule 0",
    ),
    (
        Check(&[101, 60], Err(Refused(19, 0))),
        "minute 101 lies outside the window of event 0",
    ),
    (
        Check(&[0], Err(Refused(17, NOWHERE))),
        "one minute is too few for two events",
    ),
];

const POINT: &[Case] = &[
    (
        Plan(&[
            Event(0, 0, 10),
            Event(0, 0, 10),
            Rule(
                0,
                1,
                Gap {
                    least: 10,
                    most: 20,
                },
            ),
        ]),
        "ten minutes or more in ten are accepted",
    ),
    (
        Solve(PLACES, Ok(2), &[(0, 0), (10, 10)]),
        "one schedule is left: 0..0 and 10..10",
    ),
];

const SAME: &[Case] = &[
    (
        Plan(&[
            Event(0, 3, 9),
            Event(0, 5, 12),
            Rule(0, 1, Gap { least: 0, most: 0 }),
        ]),
        "a rule for the same minute is accepted",
    ),
    (
        Solve(PLACES, Ok(2), &[(5, 9), (5, 9)]),
        "the same minute: 5..9 twice",
    ),
];

const BEFORE: &[Case] = &[
    (
        Plan(&[
            Event(0, 10, 20),
            Event(0, 0, 5),
            Rule(
                0,
                1,
                Gap {
                    least: -10,
                    most: -10,
                },
            ),
        ]),
        "a rule that leads back is accepted",
    ),
    (
        Solve(PLACES, Ok(2), &[(10, 15), (0, 5)]),
        "ten minutes before: 10..15 and 0..5",
    ),
];

const STILL: &[Case] = &[
    (
        Plan(&[
            Event(0, 0, 0),
            Event(0, 0, 0),
            Rule(
                0,
                1,
                Gap {
                    least: 0,
                    most: 527_040,
                },
            ),
        ]),
        "two events of minute 0 are accepted",
    ),
    (
        Solve(PLACES, Ok(1), &[(0, 0), (0, 0)]),
        "a rule as wide as can be: both 0..0",
    ),
];

const FAR: &[Case] = &[
    (
        Plan(&[
            Event(0, 0, 10),
            Event(0, 0, 10),
            Rule(
                0,
                1,
                Gap {
                    least: 11,
                    most: 20,
                },
            ),
        ]),
        "eleven minutes in ten are accepted",
    ),
    (
        Solve(PLACES, Err(Barred(0, 1)), &[]),
        "eleven minutes in ten: barred at event 0 by cause 1",
    ),
];

const ODD: &[Case] = &[
    (
        Plan(&[
            Event(0, 0, 527_040),
            Event(0, 0, 527_040),
            Rule(0, 1, Gap { least: 5, most: 5 }),
            Rule(0, 1, Gap { least: 6, most: 6 }),
        ]),
        "two rules between the same events are accepted",
    ),
    (
        Solve(PLACES, Err(Barred(0, 2)), &[]),
        "five and six minutes at once: barred at event 0 by cause 2",
    ),
];

// Both ends of event 2 come over two rules, one fewer than there are events, and are held.
const TWO_LINKS: &[Case] = &[
    (
        Plan(&[
            Event(0, 5, 5),
            Event(0, 0, 527_040),
            Event(0, 0, 527_040),
            Rule(0, 1, Gap { least: 1, most: 1 }),
            Rule(1, 2, Gap { least: 1, most: 1 }),
        ]),
        "a chain of three events is accepted",
    ),
    (
        Solve(PLACES, Ok(2), &[(5, 5), (6, 6), (7, 7)]),
        "ends over two rules are held among three events: 5..5, 6..6 and 7..7",
    ),
];

// Each turn through the three rules pushes the earliest ends on by one minute, and no `most` is ever reached.
// Round 1, as (minute, links), with Y for 527,040:
//   rule 0: the latest of event 0 becomes (Y - 1, 1), and the earliest of event 1 becomes (1, 1);
//   rule 1: the latest of event 1 stays, since Y is not below Y, and the earliest of event 2 becomes (1, 2);
//   rule 2: the latest of event 2 becomes (Y - 1, 2), and the earliest of event 0 would become (1, 3).
// That is above 0 and not past Y - 1, and its links are as many as the events: barred there by cause 2.
// Were two links enough to bar, it would be at event 2, and were four needed, at event 1 in round 2.
const THREE_LINKS: &[Case] = &[
    (
        Plan(&[
            Event(0, 0, 527_040),
            Event(0, 0, 527_040),
            Event(0, 0, 527_040),
            Rule(
                0,
                1,
                Gap {
                    least: 1,
                    most: 527_040,
                },
            ),
            Rule(
                1,
                2,
                Gap {
                    least: 0,
                    most: 527_040,
                },
            ),
            Rule(
                2,
                0,
                Gap {
                    least: 0,
                    most: 527_040,
                },
            ),
        ]),
        "a cycle of three rules is accepted",
    ),
    (
        Solve(PLACES, Err(Barred(0, 2)), &[]),
        "an end over three rules bars among three events: at event 0 by cause 2",
    ),
];

pub static TABLES: [&[Case]; 11] = [
    NONE,
    ALONE,
    PAIR,
    POINT,
    SAME,
    BEFORE,
    STILL,
    FAR,
    ODD,
    TWO_LINKS,
    THREE_LINKS,
];
