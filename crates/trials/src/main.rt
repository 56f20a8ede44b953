// Trials of the network: hand cases with known answers, then random plans against Bellman and Ford.
#![tactic(auto)]

use crate::hand::play;
use crate::tally::Tally;
use crate::trial::run_trial;
use crate::trouble::Trouble;
use std::alloc::Global;

mod answer;
mod bellman;
mod book;
mod cases;
mod checks;
mod entry;
mod hand;
mod limits;
mod list;
mod naive;
mod plans;
mod random;
mod shape;
mod slips;
mod tally;
mod trial;
mod trouble;

const SEEDS: u64 = 2_400;

fn main(rt: HostRuntime) -> Result<(), Trouble> {
    let mut tally = Tally::default();
    let outcome = run(rt.alloc(), &mut tally);
    if let Err(Trouble::Differs(words)) = &outcome {
        // The seeds are tried in order, so the number of plans that came out well is the seed that did not.
        println!(rt; "a difference after {} random plans: {words}", tally.plans)?;
    }
    let passed = outcome?;
    println!(rt; "hand cases passed: {passed}")?;
    print!(rt; "{tally}")?;
    println!(rt; "no difference")?;
    Ok(())
}

// How many hand cases passed.
fn run(heap: Global, tally: &mut Tally) -> Result<usize, Trouble> {
    let small_plans = play(heap, &cases::TABLES)?;
    let at_limits = play(heap, &limits::TABLES)?;
    for seed in 0..SEEDS {
        run_trial(heap, seed, tally)?;
    }
    Ok(small_plans.saturating_add(at_limits))
}
