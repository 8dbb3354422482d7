// A table of rows with a fixed room.
ghost use Rattle.std.specs.Prelude.{◌≡◌, ◌<◌, ◌≤◌, [], ◌∷◌, ◌++◌, IfOk, vec_len, vec_items, vec_capacity};

use std::alloc::{AllocError, Global};

// At most `N` rows, with room for all of them from the start.
#[derive(Drop)]
pub struct Table<T, const N: usize> {
    pub(crate) rows: Vec<T>,
    ghost room: { N ≤ vec_capacity rows },
    ghost small: { vec_len rows ≤ N },
}

impl<T: Copy, const N: usize> Table<T, N> {
    // An empty table.
    pub fn new(heap: Global) -> Result<Table<T, N>, AllocError>
        ensures { IfOk result (λ t. vec_items t.rows ≡ []) }
    {
        Ok(Table {
            rows: Vec::with_capacity(heap, N)?,
        })
    }

    // Its rows.
    pub fn rows(&self) -> &[T]
        ensures { result.now ≡ vec_items self.now.rows }
    {
        self.rows.as_slice()
    }

    // One row more.
    pub fn push(&mut self, row: T)
        requires { vec_len self.old.rows < N }
        ensures { vec_items self.new.rows ≡ vec_items self.old.rows ++ row ∷ [] }
    {
        self.rows.push_reserved(row);
    }

    // No row any more.
    pub fn clear(&mut self)
        ensures { vec_items self.new.rows ≡ [] }
    {
        self.rows.clear();
    }
}
