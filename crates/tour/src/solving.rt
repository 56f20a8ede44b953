// The windows that the rules leave to the events of the day.
use crate::day::{DayEvent, EVENTS, events};
use crate::drafting::show_event;
use bounds::fault::PlanFault;
use network::draft::Draft;
use network::solve::solve;
use network::tables::Window;
use std::io;

// What solving a draft of the day finds.
#[derive(Clone, Copy)]
pub struct Solved {
    // in the order of the day's events
    pub windows: [Window; EVENTS],
    // how many rounds over the rules it took to find them
    pub rounds: u8,
}

impl Solved {
    pub fn of(draft: &Draft) -> Result<Solved, PlanFault> {
        // Kept: a library call takes no heap, so it fills a list that we lend it, and that holds something before.
        let mut windows = [Window {
            earliest: 0,
            latest: 0,
        }; EVENTS];
        let rounds = solve(draft, &mut windows)?.rounds;
        Ok(Solved { windows, rounds })
    }

    pub fn window(&self, event: DayEvent) -> Window {
        self.windows[event.index()]
    }
}

pub fn show_windows(rt: &impl Print, solved: &Solved) -> io::Result<()> {
    println!(rt;
        "\nThe windows that the rules leave, found in {} rounds:",
        solved.rounds
    )?;
    for (event, window) in events().iter().zip(&solved.windows) {
        show_event(rt, *event, *window)?;
    }
    Ok(())
}
