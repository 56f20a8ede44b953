// One random plan: its entries held to the book, its windows to the distances of Bellman and Ford, and its checks to
// the naive one.
use crate::answer::Fault::Barred;
use crate::answer::{Answer, enter, solved};
use crate::bellman::measure;
use crate::book::Book;
use crate::entry::Entry;
use crate::list::{PLACES, holds_just, unwritten};
use crate::plans::Maker;
use crate::random::Random;
use crate::tally::Tally;
use crate::trouble::{Trouble, ensure};
use network::draft::Draft;
use network::tables::Window;
use std::alloc::{AllocError, Global};

// A plan as the library drafts it, and as the book has it.
#[derive(Drop)]
pub struct Trial {
    pub heap: Global,
    pub draft: Draft,
    pub book: Book,
}

pub fn run_trial(heap: Global, seed: u64, tally: &mut Tally) -> Result<(), Trouble> {
    let mut maker = Maker::new(heap, seed);
    let mut trial = Trial {
        heap,
        draft: Draft::new(heap)?,
        book: Book::new(heap),
    };
    trial.enter_all(&mut maker)?;
    let answer = trial.compare(&mut maker.random)?;
    tally.add(&trial.book, answer);
    Ok(())
}

impl Trial {
    fn enter_all(&mut self, maker: &mut Maker) -> Result<(), Trouble> {
        for turn in maker.turns() {
            self.enter_each(turn.events, || maker.event())?;
            self.enter_each(turn.rules, || Ok(maker.rule()))?;
        }
        Ok(())
    }

    fn enter_each<F: FnMut() -> Result<Entry, AllocError>>(
        &mut self,
        tries: u32,
        mut draw: F,
    ) -> Result<(), Trouble>
        requires { F.IsAlwaysCallable draw }
    {
        for _ in 0..tries {
            self.enter(draw()?)?;
        }
        Ok(())
    }

    fn enter(&mut self, entry: Entry) -> Result<(), Trouble> {
        let expected = self.book.enter(entry)?;
        ensure(
            enter(&mut self.draft, entry) == expected,
            "an entry has another answer than expected",
        )
    }

    // What solving the plan answers, where nothing differs from what is expected.
    fn compare(&self, random: &mut Random) -> Result<Answer, Trouble> {
        let mut windows = unwritten(self.heap, PLACES)?;
        let answer = solved(&self.draft, windows.as_mut_slice());
        ensure(
            self.same_rows(),
            "the draft has other rows than those that were accepted",
        )?;
        let schedule = self.compare_windows(answer, windows.as_slice())?;
        if schedule {
            self.try_ends(windows.as_slice(), random)?;
        }
        self.try_choices(random)?;
        Ok(answer)
    }

    // That the draft holds the accepted entries and nothing else: a refused one changed nothing.
    fn same_rows(&self) -> bool {
        self.draft.events() == self.book.events.as_slice()
            && self.draft.rules() == self.book.rules.as_slice()
            && self.draft.views() == self.book.views.as_slice()
    }

    // Whether there is a schedule, where the answer and the list are those that Bellman and Ford leave.
    fn compare_windows(&self, answer: Answer, list: &[Window]) -> Result<bool, Trouble> {
        let events = self.book.events.as_slice();
        let measured = measure(self.heap, events, self.book.rules.as_slice())?;
        let schedule = measured.is_some();
        let windows = measured.as_deref().unwrap_or(&[]);
        ensure(
            is_sound(answer, schedule, events.len()) && holds_just(list, windows),
            "the windows are not those of Bellman and Ford",
        )?;
        Ok(schedule)
    }
}

// At least one round and no more than there are events, but for a plan with no event; or barred at an event that is
// there.
fn is_sound(answer: Answer, schedule: bool, events: usize) -> bool {
    match answer {
        Ok(rounds) => schedule && 1 <= rounds && usize::from(rounds) <= events.max(1),
        Err(Barred(event, _)) => !schedule && usize::from(event) < events,
        Err(_) => false,
    }
}
