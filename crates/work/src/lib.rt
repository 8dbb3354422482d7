//! Work through an access: a read and a write whose loss is a refusal, and what stretches of them come to.
#![tactic(auto)]

ghost use Rattle.work.specs.Doing.{Ran, read, write};

use access::Access;
use pci::Register;
use pci::fault::Fault;

// A read; the refusal where the access is lost.
pub fn look<A: Access>(access: &mut A, register: Register) -> Result<u32, Fault>
    ensures when_lost_left_open { Ran (A.state access.old) (read register.at register.offset) result (A.state access.new) }
{
    Ok(access.read(register)?)
}

// A write; the refusal where the access is lost.
pub fn put<A: Access>(access: &mut A, register: Register, value: u32) -> Result<(), Fault>
    ensures when_lost_left_open { Ran (A.state access.old) (write register.at register.offset value) result (A.state access.new) }
{
    Ok(access.write(register, value)?)
}
