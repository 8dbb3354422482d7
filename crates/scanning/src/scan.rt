// A scan under way.
ghost use Rattle.std.specs.Prelude.{length};
ghost use Rattle.book.specs.Rows.{Earlier};
ghost use Rattle.book.specs.Tables.{rows_of};

use book::functions::Functions;

// The access that it works through, the functions that it books, and the bus that it is on.
// The bridge that makes the bus, where there is one, has a row.
#[derive(Drop)]
pub(crate) struct Scan<'a, A> {
    pub(crate) access: &'a mut A,
    pub(crate) functions: &'a mut Functions,
    pub(crate) bus: Bus,
    ghost known: { Earlier bus.parent (length (rows_of functions.now)) },
}

// A bus: its number, and the row of the bridge that makes it (none for the host's).
#[derive(Clone, Copy)]
pub(crate) struct Bus {
    pub(crate) number: u8,
    pub(crate) parent: Option<u8>,
}
