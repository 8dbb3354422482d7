// The table of functions.
ghost use Rattle.std.specs.Prelude.{vec_items};
ghost use Rattle.book.specs.Rows.{ParentsEarlier};

use super::rows::{FunctionRow, RowKind};
use super::table::Table;
use std::alloc::{AllocError, Global};

// The most functions of a book.
pub const FUNCTIONS: usize = 64;

// At most 64 rows, each after its parent's.
#[derive(Drop)]
pub struct Functions {
    pub(crate) table: Table<FunctionRow, FUNCTIONS>,
    ghost parents: { ParentsEarlier (vec_items table.rows) },
}

impl Functions {
    ghost use Rattle.std.specs.Prelude.{◌≡◌, ◌<◌, [], ◌∷◌, ◌++◌, length, IfOk, slice_index_or, slice_set};
    ghost use Rattle.book.specs.Rows.{no_row, with_kind, Earlier};
    ghost use Rattle.book.specs.Tables.{rows_of};

    // An empty table.
    pub fn new(heap: Global) -> Result<Functions, AllocError>
        ensures { IfOk result (λ t. rows_of t ≡ []) }
    {
        let table = Table::new(heap)?;
        Ok(Functions { table })
    }

    // Its rows.
    pub fn rows(&self) -> &[FunctionRow]
        ensures { result.now ≡ rows_of self.now }
    {
        self.table.rows()
    }

    // One row more, below an earlier one.
    pub fn push(&mut self, row: FunctionRow)
        requires room { length (rows_of self.old) < 64 }
        requires earlier { Earlier row.parent (length (rows_of self.old)) }
        ensures { rows_of self.new ≡ rows_of self.old ++ row ∷ [] }
    {
        self.table.push(row);
    }

    // Row i with another kind.
    pub fn set_kind(&mut self, i: usize, kind: RowKind)
        requires { i < length (rows_of self.old) }
        ensures { rows_of self.new ≡ slice_set (rows_of self.old) i (with_kind (slice_index_or (rows_of self.old) i no_row) kind) }
    {
        self.table.rows[i].kind = kind;
    }

    // No row any more.
    pub fn clear(&mut self)
        ensures { rows_of self.new ≡ [] }
    {
        self.table.clear();
    }
}
