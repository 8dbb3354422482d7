// From one bridge to the next: down into a new bus, and back up by the parent rows.
ghost use Rattle.std.specs.Prelude.{◌≡◌, ℕ, suc, ◌<◌, length, Some, Ok};
ghost use Rattle.book.specs.Tables.{rows_of};
ghost use Rattle.numbering.specs.Rule.{bridge_of, next_bridge, numbering, closing};
ghost use Rattle.numbering.specs.Loop.{climbing};
ghost use Rattle.scanning.specs.Scans.{rows_in, Same, Stays, Does, Tells};

use super::registers::set_numbers;
use super::scan::{Bus, Scan};
use access::Access;
use book::functions::Functions;
use book::rows::{FunctionRow, RowKind};
use pci::fault::Fault;
use pci::numbers::Numbers;

// Whether the row is of a bridge on the bus below `parent`.
fn is_bridge_of(parent: Option<u8>, row: &FunctionRow) -> bool
    ensures { result ≡ bridge_of parent row.now }
{
    parent == row.parent && matches!(row.kind, RowKind::Bridge(_))
}

// The first bridge of the bus below `parent` at or after the row `first`.
fn find_bridge(functions: &Functions, parent: Option<u8>, first: usize) -> Option<usize>
    ensures picks { result ≡ next_bridge parent first (rows_of functions.now) }
    ensures within { (k : ℕ) → result ≡ Some k → k < length (rows_of functions.now) }
{
    functions
        .rows()
        .iter()
        .skip(first)
        .position(|row| is_bridge_of(parent, row))
        .map(|i| first + i)
}

impl<A: Access> Scan<'_, A> {
    // Gives the bridge of a row its numbers, in its register and in its row.
    pub(crate) fn number(&mut self, k: usize, numbers: Numbers) -> Result<(), Fault>
        requires { k < length (rows_in self.old) }
        ensures ran { Does A.state self.old (numbering k numbers) result self.new }
        ensures stays { Stays self.old self.new }
    {
        set_numbers(self.access, self.functions.rows()[k].at, numbers)?;
        self.functions.set_kind(k, RowKind::Bridge(numbers));
        Ok(())
    }

    // Ends the numbering below the bridge of a row.
    fn close(&mut self, k: usize, used: u8) -> Result<(), Fault>
        requires { k < length (rows_in self.old) }
        ensures ran { Does A.state self.old (closing k used) result self.new }
        ensures stays { Stays self.old self.new }
    {
        match self.functions.rows()[k].kind {
            RowKind::Endpoint => Ok(()),
            RowKind::Bridge(numbers) => {
                let numbers = Numbers {
                    subordinate: used,
                    ..numbers
                };
                self.number(k, numbers)
            }
        }
    }

    // The next bridge to number: on this bus at or after the row `first` or, once a bus has none left, on the buses above.
    pub(crate) fn climb(&mut self, first: usize, used: u8) -> Result<Option<usize>, Fault>
        ensures ran { Tells A.state self.old (climbing (suc (length (rows_in self.old))) self.old.bus.parent first used) result self.new }
        ensures within { (k : ℕ) → result ≡ Ok (Some k) → k < length (rows_in self.new) }
        ensures same { Same self.old self.new }
    {
        let mut next = first;
        loop {
            if let Some(k) = find_bridge(self.functions, self.bus.parent, next) {
                return Ok(Some(k));
            }
            let Some(p) = self.bus.parent else {
                return Ok(None);
            };
            let p = p as usize;
            self.close(p, used)?;
            // Up to the bus that the bridge itself is on.
            let row = self.functions.rows()[p];
            self.bus = Bus {
                number: row.at.bus,
                parent: row.parent,
            };
            next = p + 1;
        }
    }
}
