// The write of a bridge's bus numbers.
ghost use Rattle.work.specs.Doing.{Ran};
ghost use Rattle.numbering.specs.Rule.{program};

use access::Access;
use pci::fault::Fault;
use pci::field::NUMBERS;
use pci::numbers::Numbers;
use pci::{Name, Register};
use work::{look, put};

// Gives a bridge its bus numbers, the rest of 18h as read.
pub(crate) fn set_numbers<A: Access>(
    access: &mut A,
    at: Name,
    numbers: Numbers,
) -> Result<(), Fault>
    ensures { Ran (A.state access.old) (program at numbers) result (A.state access.new) }
{
    let register = Register {
        at,
        offset: NUMBERS,
    };
    let old = look(access, register)?;
    put(access, register, numbers.put_into(old))
}
