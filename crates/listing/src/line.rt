// One line, under a guard.
ghost use Rattle.std.specs.Prelude.{map};
ghost use Rattle.listing.specs.Fields.{field, line as line_of};
ghost use Rattle.listing.specs.Kept.{Adds, Puts};

use super::fields::Field;
use super::kept::{Line, Listing, NoRoom};

impl Line<'_> {
    // The fields in a row. Where one does not fit, those before it are left for the guard to withdraw.
    fn fill(&mut self, first: [u8; 2], fields: &[Field]) -> Result<(), NoRoom>
        ensures { Adds result self.old (line_of first (map field fields.now)) self.new }
    {
        self.add(&first)?;
        for one in fields {
            self.add(b",")?;
            self.add_field(*one)?;
        }
        self.add(b"\n")
    }
}

impl Listing<'_> {
    // Appends a line whole. One that does not fit is withdrawn.
    pub(crate) fn put_line(&mut self, first: [u8; 2], fields: &[Field]) -> Result<(), NoRoom>
        ensures { Puts result self.old (line_of first (map field fields.now)) self.new }
    {
        let start = self.kept.len;
        let mut line = Line {
            kept: &mut self.kept,
            buf: self.buf,
            back_to: Some(start),
        };
        line.fill(first, fields)?;
        line.back_to = None;
        Ok(())
    }
}
