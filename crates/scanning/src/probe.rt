// One name: nothing, or a row more.
ghost use Rattle.std.specs.Prelude.{◌≡◌, ◌<◌, IfOk};
ghost use Rattle.work.specs.Doing.{Ran};
ghost use Rattle.numbering.specs.Rule.{row_kind, booked, quiet, booking, probing};
ghost use Rattle.scanning.specs.Scans.{Stays, Tells};

use super::registers::set_numbers;
use super::scan::Scan;
use access::Access;
use book::rows::{FunctionRow, RowKind};
use pci::fault::Fault;
use pci::field::{HEADER, IDENTITY, has_several, is_absent};
use pci::kind::Kind;
use pci::numbers::Numbers;
use pci::{Name, Register};
use work::look;

// A bridge has none at first.
const NO_NUMBERS: Numbers = Numbers {
    primary: 0,
    secondary: 0,
    subordinate: 0,
};

// The kind of a new row.
fn as_row_kind(kind: Kind) -> RowKind
    ensures { result ≡ row_kind kind }
{
    match kind {
        Kind::Endpoint => RowKind::Endpoint,
        Kind::Bridge => RowKind::Bridge(NO_NUMBERS),
    }
}

// The row of a function that was found; the table's room goes before the kind.
#[tactic(auto, unfolding(numbering::specs::Rule::booked))]
fn row_of(
    at: Name,
    parent: Option<u8>,
    id: u32,
    header: u32,
    rows: usize,
) -> Result<FunctionRow, Fault>
    ensures is { result ≡ booked at parent id header rows }
    ensures fits { IfOk result (λ row. (rows < 64) × (row.parent ≡ parent)) }
{
    if rows >= 64 {
        return Err(Fault::Full { at });
    }
    let kind = Kind::in_header(header).map_err(|strange| Fault::Strange {
        at,
        kind: strange.number,
    })?;
    Ok(FunctionRow {
        parent,
        at,
        id,
        kind: as_row_kind(kind),
    })
}

// A bridge that was found loses its numbers.
fn silence<A: Access>(access: &mut A, at: Name, kind: RowKind) -> Result<(), Fault>
    ensures { Ran (A.state access.old) (quiet at kind) result (A.state access.new) }
{
    match kind {
        RowKind::Endpoint => Ok(()),
        RowKind::Bridge(_) => set_numbers(access, at, NO_NUMBERS),
    }
}

impl<A: Access> Scan<'_, A> {
    // Books a function that was found: its row, once a bridge has lost its numbers.
    fn book(&mut self, at: Name, id: u32, header: u32) -> Result<bool, Fault>
        ensures ran { Tells A.state self.old (booking at self.old.bus.parent id header) result self.new }
        ensures stays { Stays self.old self.new }
    {
        let row = row_of(at, self.bus.parent, id, header, self.functions.rows().len())?;
        silence(self.access, row.at, row.kind)?;
        self.functions.push(row);
        Ok(has_several(header))
    }

    // Probes a name; answers whether its device has functions 1 to 7.
    pub(crate) fn probe(&mut self, at: Name) -> Result<bool, Fault>
        ensures ran { Tells A.state self.old (probing at self.old.bus.parent) result self.new }
        ensures stays { Stays self.old self.new }
    {
        let id = look(
            self.access,
            Register {
                at,
                offset: IDENTITY,
            },
        )?;
        if is_absent(id) {
            return Ok(false);
        }
        let header = look(self.access, Register { at, offset: HEADER })?;
        self.book(at, id, header)
    }
}
