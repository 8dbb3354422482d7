// The whole tree: bus 0, then bridge by bridge.
ghost use Rattle.std.specs.Prelude.{◌≡◌, ◌<◌, length, Some};
ghost use Rattle.work.specs.Doing.{now_is};
ghost use Rattle.book.specs.Tables.{rows_of};
ghost use Rattle.numbering.specs.Rule.{descending};
ghost use Rattle.numbering.specs.Law.{Searched};
ghost use Rattle.scanning.specs.Scans.{rows_in, Same, Does};

use super::scan::{Bus, Scan};
use access::Access;
use book::functions::Functions;
use pci::fault::Fault;
use pci::numbers::Numbers;

impl<A: Access> Scan<'_, A> {
    // Numbers the bridge of a row, and scans the bus of that number.
    fn descend(&mut self, k: usize, secondary: u8, last: u8) -> Result<(), Fault>
        requires { k < length (rows_in self.old) }
        ensures ran { Does A.state self.old (descending k secondary last) result self.new }
        ensures on { self.new.bus.parent ≡ Some k }
        ensures same { Same self.old self.new }
    {
        let numbers = Numbers {
            primary: self.functions.rows()[k].at.bus,
            secondary,
            subordinate: last,
        };
        self.bus = Bus {
            number: secondary,
            parent: Some(k as u8),
        };
        self.number(k, numbers)?;
        self.scan_bus()
    }
}

// Books the functions of the rack below the given rows, and numbers its buses: bus 0, then from bridge to bridge until none is left.
pub fn scan_rack<A: Access>(access: &mut A, functions: &mut Functions) -> Result<(), Fault>
    ensures when_lost_left_open { Searched (A.state access.old) (rows_of functions.old) (now_is (rows_of functions.new) result) (A.state access.new) }
{
    let last = access.last_bus();
    let bus = Bus {
        number: 0,
        parent: None,
    };
    let mut scan = Scan {
        access,
        functions,
        bus,
    };
    scan.scan_bus()?;
    let mut used: u8 = 0;
    let mut next: usize = 0;
    while let Some(k) = scan.climb(next, used)? {
        if used >= last {
            let at = scan.functions.rows()[k].at;
            return Err(Fault::Spent { at, last });
        }
        used += 1;
        next = scan.functions.rows().len();
        scan.descend(k, used, last)?;
    }
    Ok(())
}
