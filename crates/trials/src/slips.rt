// Entries that are wrong on purpose.
use crate::book::LAST;
use crate::random::Random;
use bounds::gap::Gap;
use network::tables::{Event, Rule, Window};

// One or two of the questions fail.
pub fn wrong_event(random: &mut Random, room: u8, window: Window) -> Event {
    let far = LAST + 1;
    let too_late = Window {
        latest: far.saturating_add(random.below(1_000)),
        ..window
    };
    let swapped = Window {
        earliest: window.latest.saturating_add(1),
        ..window
    };
    let no_room = random.byte_below(248) + 8;
    match random.below(4) {
        0 => Event {
            room: no_room,
            window,
        },
        1 => Event {
            room,
            window: too_late,
        },
        2 => Event {
            room,
            window: swapped,
        },
        _ => Event {
            room: no_room,
            window: too_late,
        },
    }
}

pub fn wrong_rule(random: &mut Random, rule: Rule) -> Rule {
    if random.one_in(2) {
        return with_wrong_ends(random, rule);
    }
    let gap = wrong_gap(random, rule.gap);
    // A rule from an event to itself is asked for before its gap is.
    let to = if random.one_in(4) { rule.from } else { rule.to };
    Rule { to, gap, ..rule }
}

fn with_wrong_ends(random: &mut Random, rule: Rule) -> Rule {
    // No plan has this many events.
    let unknown = random.byte_below(192) + 64;
    match random.below(4) {
        0 => Rule {
            from: unknown,
            ..rule
        },
        1 => Rule {
            to: unknown,
            ..rule
        },
        2 => Rule {
            from: unknown,
            to: 255,
            ..rule
        },
        _ => Rule {
            to: rule.from,
            ..rule
        },
    }
}

fn wrong_gap(random: &mut Random, gap: Gap) -> Gap {
    match random.below(3) {
        0 => Gap {
            least: gap.most.saturating_add(1),
            most: gap.least,
        },
        1 => Gap {
            most: 527_041,
            ..gap
        },
        _ => Gap {
            least: -527_041,
            ..gap
        },
    }
}
