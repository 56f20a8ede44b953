// The shape of a random plan: what its entries are drawn from.
use crate::book::LAST;
use crate::random::Random;

const SCALES: [u32; 6] = [0, 10, 100, 1_000, 50_000, LAST];

const SLACKS: [u32; 6] = [0, 1, 5, 60, 1_000, LAST];

// How many events are tried, and then how many rules.
#[derive(Clone, Copy, Default)]
pub struct Turn {
    pub events: u32,
    pub rules: u32,
}

// What the gaps of the rules lie around.
#[derive(Clone, Copy)]
pub enum Middle {
    Anywhere,
    // the minutes of a hidden schedule
    Hidden,
    // these too, but now and then a rule does not keep to them
    Broken,
}

#[derive(Clone, Copy)]
pub struct Shape {
    pub turns: [Turn; 2],
    pub rooms: u8,
    // the minutes lie from the base to this far after it
    pub base: u32,
    pub scale: u32,
    // how far a window or a rule may reach to each side
    pub slack: u32,
    pub middle: Middle,
    // every window is the whole year
    pub wide: bool,
    // each event is tied to the next one, the last pair first, so that news of the first event takes long to the last
    pub chain: bool,
    // some entries are wrong on purpose
    pub slips: bool,
}

impl Shape {
    pub fn draw(random: &mut Random) -> Shape {
        let scale = random.pick(&SCALES);
        let events = draw_size(random, 66);
        let chain = random.one_in(4);
        let rules = if chain {
            events.saturating_sub(random.below(2))
        } else {
            draw_size(random, 140)
        };
        Shape {
            turns: if chain {
                [Turn { events, rules }, Turn::default()]
            } else {
                in_two_turns(events, rules)
            },
            rooms: draw_rooms(random),
            base: draw_base(random, scale),
            scale,
            slack: random.pick(&SLACKS),
            middle: draw_middle(random),
            wide: random.one_in(3),
            chain,
            slips: random.one_in(2),
        }
    }
}

// A rule may be entered before all events are.
fn in_two_turns(events: u32, rules: u32) -> [Turn; 2] {
    let early = Turn {
        events: events / 2,
        rules: rules / 2,
    };
    let late = Turn {
        events: events - early.events,
        rules: rules - early.rules,
    };
    [early, late]
}

// One room often, since rules between rooms soon have all the views that there may be.
fn draw_rooms(random: &mut Random) -> u8 {
    if random.one_in(3) {
        1
    } else {
        random.byte_below(8) + 1
    }
}

// Small sizes often, since a small plan shows a fault best.
fn draw_size(random: &mut Random, most: u32) -> u32 {
    match random.below(4) {
        0 => random.below(5),
        1 => random.below(17),
        2 => random.up_to(most),
        _ => most.saturating_sub(random.below(12)),
    }
}

// The first minute, the last one, or any place between, so that the ends of the year come too.
fn draw_base(random: &mut Random, scale: u32) -> u32 {
    let room = LAST.saturating_sub(scale);
    match random.below(3) {
        0 => 0,
        1 => room,
        _ => random.up_to(room),
    }
}

fn draw_middle(random: &mut Random) -> Middle {
    let hidden = !random.one_in(3);
    let broken = random.one_in(2);
    match (hidden, broken) {
        (false, _) => Middle::Anywhere,
        (true, false) => Middle::Hidden,
        (true, true) => Middle::Broken,
    }
}
