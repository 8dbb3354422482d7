// The line of a refusal.
ghost use Rattle.std.specs.Prelude.{◌≡◌, ◌+◌, ◌<◌, ◌≤◌, true, length, is_some};
ghost use Rattle.pci.specs.Faults.{told as tells};
ghost use Rattle.listing.specs.Fields.{field};
ghost use Rattle.listing.specs.Kept.{Puts};
ghost use Rattle.listing.specs.Faults.{no_line, concerned, Behind};

use super::fields::Field;
use super::kept::{Kept, Listing, NoRoom};
use pci::Name;
use pci::fault::{Fault, Told};

// The name concerned, or a dash.
fn concerned_field(name: Option<Name>) -> Field
    ensures { field result ≡ concerned name }
{
    name.map_or(Field::Dash, Field::At)
}

impl Listing<'_> {
    // The `no` line of what a refusal tells.
    fn put_told(&mut self, told: Told) -> Result<(), NoRoom>
        ensures { Puts result self.old (no_line told) self.new }
    {
        self.put_line(
            *b"no",
            &[
                Field::Decimal(told.number as u64),
                Field::In(told.layer),
                concerned_field(told.name),
                Field::Decimal(told.p),
                Field::Decimal(told.q),
            ],
        )
    }
}

// Puts the `no` line of a refusal behind the first `at` bytes and answers the new length; where it does not fit, those bytes are as they were.
// No such line is longer than 64 bytes (`room`). Where there are no `at` bytes, nothing changes (`beyond`).
pub fn list_fault(buf: &mut [u8], at: usize, fault: Fault) -> Option<usize>
    ensures put { Behind result buf.old at (no_line (tells fault)) buf.new }
    ensures room { at + 64 ≤ length buf.old → is_some result ≡ true }
    ensures beyond { length buf.old < at → buf.new ≡ buf.old }
{
    let mut listing = Listing {
        buf,
        kept: Kept { len: at },
    };
    listing.put_told(fault.told()).ok()?;
    Some(listing.kept.len)
}
