// The book whole.
ghost use Rattle.book.specs.Tables.{FreshIsEmpty};

use super::bars::Bars;
use super::functions::Functions;
use super::rows::FunctionRow;
use std::alloc::{AllocError, Global};

// How far the job of the book has come.
#[derive(Clone, Copy, PartialEq, Eq)]
pub enum Stage {
    Fresh,
    Numbered,
    Sized,
    Placed,
    Live,
}

// The two tables and the stage; at the first stage both tables are empty.
#[derive(Drop)]
pub struct Book {
    pub functions: Functions,
    pub bars: Bars,
    pub stage: Stage,
    ghost fresh: { FreshIsEmpty stage functions bars },
}

impl Book {
    ghost use Rattle.std.specs.Prelude.{◌≡◌, [], length, slice_get, IfOk};
    ghost use Rattle.book.specs.Tables.{rows_of, bars_of};
    ghost use Rattle.book.specs.Stages.{same_stage};

    // A fresh and empty book, with the memory for all its rows.
    pub fn new(heap: Global) -> Result<Book, AllocError>
        ensures { IfOk result (λ b. (b.stage ≡ Stage.Fresh) × (rows_of b.functions ≡ []) × (bars_of b.bars ≡ [])) }
    {
        let functions = Functions::new(heap)?;
        let bars = Bars::new(heap)?;
        Ok(Book {
            functions,
            bars,
            stage: Stage::Fresh,
        })
    }

    // How many functions are booked.
    pub fn count(&self) -> usize
        ensures { result ≡ length (rows_of self.now.functions) }
    {
        self.functions.rows().len()
    }

    // Row i, where there is one.
    pub fn row(&self, i: usize) -> Option<FunctionRow>
        ensures { result ≡ slice_get (rows_of self.now.functions) i }
    {
        self.functions.rows().get(i).copied()
    }

    // Whether the book is at this stage.
    pub fn is_at(&self, stage: Stage) -> bool
        ensures { result ≡ same_stage self.now.stage stage }
    {
        self.stage == stage
    }
}
