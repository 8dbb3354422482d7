// The listing of a numbered book.
ghost use Rattle.std.specs.Prelude.{◌≡◌, true, false, length, Err};
ghost use Rattle.book.specs.Tables.{rows_of};
ghost use Rattle.book.specs.Stages.{same_stage};
ghost use Rattle.listing.specs.Numbers.{rows_lines};
ghost use Rattle.listing.specs.Fitting.{Printed};

use super::kept::{Kept, Listing};
use book::book::{Book, Stage};
use pci::fault::Fault;

// Lists a numbered book from the buffer's first byte on: for each function its `fn` line, and for a bridge its `br` line right after it.
// Answers the number of bytes; refused where the book is at another stage, and where the next line does not fit: then the longest run of whole lines is kept.
// Of the bytes past those kept only their number is known (`past_left_open`).
pub fn list_numbers(buf: &mut [u8], book: &Book) -> Result<usize, Fault>
    ensures wrong_book { same_stage book.now.stage Stage.Numbered ≡ false → (result ≡ Err Fault.WrongBook) × (buf.new ≡ buf.old) }
    ensures listed { same_stage book.now.stage Stage.Numbered ≡ true → Printed result buf.old (rows_lines (rows_of book.now.functions)) buf.new }
    ensures past_left_open { length buf.new ≡ length buf.old }
{
    if !book.is_at(Stage::Numbered) {
        return Err(Fault::WrongBook);
    }
    let mut listing = Listing {
        buf,
        kept: Kept { len: 0 },
    };
    listing
        .put_rows(book.functions.rows())
        .map_err(|_| Fault::Narrow {
            kept: listing.kept.len,
        })?;
    Ok(listing.kept.len)
}
