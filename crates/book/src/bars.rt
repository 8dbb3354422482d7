// The table of register blocks.
use super::rows::BarRow;
use super::table::Table;

// The most register blocks of a book: six for each function.
pub const BARS: usize = 384;

pub type Bars = Table<BarRow, BARS>;
