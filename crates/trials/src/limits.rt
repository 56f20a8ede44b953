// Entries at the limits of a draft, and the order of the questions where two of them fail at once.
use crate::answer::Fault::Refused;
use crate::answer::NOWHERE;
use crate::hand::Act::{Enter, Fill, Holds, Pairs};
use crate::hand::Row::{Event, Rule};
use crate::hand::{Case, WIDEST};
use bounds::gap::Gap;

const TOO_WIDE: Gap = Gap {
    least: -527_040,
    most: 527_041,
};

const TOO_DEEP: Gap = Gap {
    least: -527_041,
    most: 527_040,
};

const SWAPPED: Gap = Gap { least: 1, most: 0 };

const ONCE: Gap = Gap { least: 1, most: 1 };

const EVENTS: &[Case] = &[
    (
        Enter(Event(8, 0, 1), Err(Refused(1, 8))),
        "room 8 is refused with 1",
    ),
    (
        Enter(Event(255, 0, 1), Err(Refused(1, 255))),
        "room 255 is refused with 1",
    ),
    (
        Enter(Event(0, 0, 527_041), Err(Refused(2, NOWHERE))),
        "latest 527,041 is refused with 2",
    ),
    (
        Enter(Event(0, 6, 5), Err(Refused(2, NOWHERE))),
        "latest before earliest is refused with 2",
    ),
    (
        Enter(Event(8, 0, 527_041), Err(Refused(1, 8))),
        "room 8 is asked before latest 527,041",
    ),
    (
        Enter(Event(9, 6, 5), Err(Refused(1, 9))),
        "room 9 is asked before the order of the window",
    ),
    (Holds(0, 0, 0), "refused events leave the draft empty"),
    (
        Enter(Event(0, 0, 0), Ok(0)),
        "room 0 and minute 0 are accepted",
    ),
    (
        Enter(Event(7, 527_040, 527_040), Ok(1)),
        "room 7 and minute 527,040 are accepted",
    ),
    (
        Enter(Event(3, 0, 527_040), Ok(2)),
        "the whole year is accepted",
    ),
    (Holds(3, 0, 0), "three events are in the draft"),
];

const FULL_OF_EVENTS: &[Case] = &[
    (Fill(63, Event(0, 0, 527_040)), "63 events are accepted"),
    (Enter(Event(1, 0, 1), Ok(63)), "a 64th event is accepted"),
    (
        Enter(Event(1, 0, 1), Err(Refused(3, NOWHERE))),
        "a 65th event is refused with 3",
    ),
    (
        Enter(Event(0, 6, 5), Err(Refused(2, NOWHERE))),
        "the window is asked before the 65th event",
    ),
    (
        Enter(Event(8, 0, 1), Err(Refused(1, 8))),
        "the room is asked before the 65th event",
    ),
    (Holds(64, 0, 0), "64 events are in the draft"),
];

const RULES: &[Case] = &[
    (
        Enter(Rule(0, 1, ONCE), Err(Refused(4, 0))),
        "with no event, from is refused with 4",
    ),
    (Fill(2, Event(0, 0, 527_040)), "two events are accepted"),
    (
        Enter(Rule(2, 0, ONCE), Err(Refused(4, 2))),
        "from 2 of two events is refused with 4",
    ),
    (
        Enter(Rule(0, 2, ONCE), Err(Refused(4, 2))),
        "to 2 of two events is refused with 4",
    ),
    (
        Enter(Rule(7, 9, ONCE), Err(Refused(4, 7))),
        "from is asked before to",
    ),
    (
        Enter(Rule(7, 7, ONCE), Err(Refused(4, 7))),
        "an unknown event is asked before a rule to itself",
    ),
    (
        Enter(Rule(0, 9, SWAPPED), Err(Refused(4, 9))),
        "an unknown event is asked before the gap",
    ),
    (
        Enter(Rule(1, 1, ONCE), Err(Refused(5, 1))),
        "a rule to itself is refused with 5",
    ),
    (
        Enter(Rule(1, 1, SWAPPED), Err(Refused(5, 1))),
        "a rule to itself is asked before the gap",
    ),
    (Holds(2, 0, 0), "refused rules leave the draft as it was"),
];

const GAPS: &[Case] = &[
    (Fill(2, Event(0, 0, 527_040)), "two events are accepted"),
    (
        Enter(Rule(0, 1, SWAPPED), Err(Refused(6, NOWHERE))),
        "most below least is refused with 6",
    ),
    (
        Enter(Rule(0, 1, TOO_WIDE), Err(Refused(6, NOWHERE))),
        "most 527,041 is refused with 6",
    ),
    (
        Enter(Rule(0, 1, TOO_DEEP), Err(Refused(6, NOWHERE))),
        "least -527,041 is refused with 6",
    ),
    (Holds(2, 0, 0), "refused gaps leave the draft as it was"),
    (
        Enter(Rule(0, 1, WIDEST), Ok(0)),
        "-527,040..527,040 is accepted",
    ),
    (
        Enter(Rule(0, 1, WIDEST), Ok(1)),
        "the same rule again is accepted",
    ),
    (
        Enter(Rule(1, 0, ONCE), Ok(2)),
        "a rule the other way round is accepted",
    ),
    (Holds(2, 3, 0), "three rules within one room need no view"),
];

const FULL_OF_RULES: &[Case] = &[
    (
        Fill(2, Event(0, 0, 527_040)),
        "two events of room 0 are accepted",
    ),
    (Enter(Event(1, 0, 527_040), Ok(2)), "and one of room 1"),
    (Fill(127, Rule(0, 1, WIDEST)), "127 rules are accepted"),
    (Enter(Rule(0, 2, ONCE), Ok(127)), "a 128th rule is accepted"),
    (Holds(3, 128, 2), "a rule between two rooms needs two views"),
    (
        Enter(Rule(0, 1, ONCE), Err(Refused(7, NOWHERE))),
        "a 129th rule is refused with 7",
    ),
    (
        Enter(Rule(1, 2, ONCE), Err(Refused(7, NOWHERE))),
        "and so is one that needs a view",
    ),
    (
        Enter(Rule(0, 1, SWAPPED), Err(Refused(6, NOWHERE))),
        "the gap is asked before the 129th rule",
    ),
    (
        Enter(Rule(0, 0, ONCE), Err(Refused(5, 0))),
        "a rule to itself is asked before the 129th rule",
    ),
    (
        Enter(Rule(0, 3, ONCE), Err(Refused(4, 3))),
        "an unknown event is asked before the 129th rule",
    ),
    (Holds(3, 128, 2), "the full draft stays as it was"),
];

// Events 0 to 29, 62 and 63 in room 0, events 30 to 59 in room 1, event 60 in room 2 and event 61 in room 3.
const VIEWS: &[Case] = &[
    (
        Fill(30, Event(0, 0, 527_040)),
        "30 events of room 0 are accepted",
    ),
    (
        Fill(30, Event(1, 0, 527_040)),
        "30 events of room 1 are accepted",
    ),
    (
        Enter(Event(2, 0, 527_040), Ok(60)),
        "event 60 of room 2 is accepted",
    ),
    (
        Enter(Event(3, 0, 527_040), Ok(61)),
        "event 61 of room 3 is accepted",
    ),
    (
        Fill(2, Event(0, 0, 527_040)),
        "two more of room 0 are accepted",
    ),
    (
        Pairs {
            times: 29,
            from: 0,
            to: 30,
        },
        "a rule from each of events 0 to 28 to events 30 to 58 is accepted",
    ),
    (
        Enter(Rule(60, 61, WIDEST), Ok(29)),
        "a rule from room 2 to room 3 is accepted",
    ),
    (
        Enter(Rule(60, 62, WIDEST), Ok(30)),
        "a rule from room 2 to room 0 is accepted",
    ),
    (
        Holds(64, 31, 62),
        "31 rules between rooms, with no event twice in one room, need 62 views",
    ),
    (
        Enter(Rule(62, 30, ONCE), Ok(31)),
        "a rule that needs one new view is accepted",
    ),
    (Holds(64, 32, 63), "it uses the other view again"),
    (
        Enter(Rule(0, 61, ONCE), Err(Refused(8, NOWHERE))),
        "two new views after 63 are refused with 8",
    ),
    (Holds(64, 32, 63), "that refusal changes nothing"),
    (
        Enter(Rule(63, 30, ONCE), Ok(32)),
        "one new view after 63 is accepted",
    ),
    (Holds(64, 33, 64), "64 views are in the draft"),
    (
        Enter(Rule(29, 30, ONCE), Err(Refused(8, NOWHERE))),
        "one new view after 64 is refused with 8",
    ),
    (
        Enter(Rule(0, 61, ONCE), Err(Refused(8, NOWHERE))),
        "two new views after 64 are refused with 8",
    ),
    (Holds(64, 33, 64), "both refusals change nothing"),
    (
        Enter(Rule(0, 31, ONCE), Ok(33)),
        "a rule between rooms that needs no new view is accepted",
    ),
    (
        Enter(Rule(0, 1, ONCE), Ok(34)),
        "a rule within a room is accepted",
    ),
    (Holds(64, 35, 64), "neither needs a view"),
    (
        Enter(Rule(29, 30, SWAPPED), Err(Refused(6, NOWHERE))),
        "the gap is asked before the views",
    ),
    (Fill(93, Rule(0, 1, WIDEST)), "93 more rules are accepted"),
    (
        Enter(Rule(29, 30, ONCE), Err(Refused(7, NOWHERE))),
        "the 129th rule is asked before the views",
    ),
    (Holds(64, 128, 64), "the full draft stays as it was"),
];

pub static TABLES: [&[Case]; 6] = [EVENTS, FULL_OF_EVENTS, RULES, GAPS, FULL_OF_RULES, VIEWS];
