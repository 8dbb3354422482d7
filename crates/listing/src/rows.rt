// The lines of the book's function rows.
ghost use Rattle.listing.specs.Lines.{Lists};
ghost use Rattle.listing.specs.Numbers.{row_lines, rows_lines};

use super::fields::Field;
use super::kept::{Listing, NoRoom};
use book::rows::{FunctionRow, RowKind};

impl Listing<'_> {
    // The `fn` line of a function, and for a bridge its `br` line after it.
    fn put_row(&mut self, row: FunctionRow) -> Result<(), NoRoom>
        ensures { Lists result self.old (row_lines row) self.new }
    {
        self.put_line(*b"fn", &[Field::At(row.at), Field::Ids(row.id)])?;
        match row.kind {
            RowKind::Endpoint => Ok(()),
            RowKind::Bridge(numbers) => self.put_line(
                *b"br",
                &[
                    Field::At(row.at),
                    Field::Bus(numbers.primary),
                    Field::Bus(numbers.secondary),
                    Field::Bus(numbers.subordinate),
                ],
            ),
        }
    }

    // The lines of all rows in order, up to the first that does not fit.
    pub(crate) fn put_rows(&mut self, rows: &[FunctionRow]) -> Result<(), NoRoom>
        ensures { Lists result self.old (rows_lines rows.now) self.new }
    {
        for row in rows {
            self.put_row(*row)?;
        }
        Ok(())
    }
}
