// Rows of one kind, of which a draft holds so many at most.
ghost use Rattle.std.specs.Prelude.{◌≡◌, ◌<◌, ◌≤◌, ◌↔◌, [], ◌∷◌, ◌++◌, IsTrue, IfOk, vec_len, vec_capacity};

use std::alloc::{AllocError, Global};

// Its memory is asked for when it is made.
#[derive(Drop)]
pub(crate) struct Table<T: Drop, const MOST: usize> {
    rows: Vec<T>,
    ghost few: { vec_len rows ≤ MOST },
    ghost room: { MOST ≤ vec_capacity rows },
}

impl<T: Drop, const MOST: usize> Table<T, MOST> {
    pub(crate) fn new(heap: Global) -> Result<Self, AllocError>
        ensures { IfOk result (λ t. t.rows.items ≡ []) }
    {
        let rows = Vec::with_capacity(heap, MOST)?;
        Ok(Table { rows })
    }

    pub(crate) fn rows(&self) -> &[T]
        ensures { result.now ≡ self.now.rows.items }
    {
        self.rows.as_slice()
    }

    pub(crate) fn is_full(&self) -> bool
        ensures { IsTrue result ↔ (MOST ≤ vec_len self.now.rows) }
    {
        self.rows.len() >= MOST
    }

    pub(crate) fn push(&mut self, row: T)
        requires { vec_len self.old.rows < MOST }
        ensures { self.new.rows.items ≡ self.old.rows.items ++ row ∷ [] }
    {
        self.rows.push_reserved(row);
    }
}
