//! Whether a machine is lawful at reset: seven laws, tested in their order at each node.
#![tactic(auto)]

ghost use Rattle.laws.specs.Lawful.{Tested};
ghost use Rattle.laws.specs.Means.{AllHeaded, NoTwins};
ghost use Rattle.laws.specs.Once.{OneAnswer};

use machine::Machine;
use member::Member;
use pci::fault::Fault;

mod member;
mod registers;

// Refuses the machine at the first node that breaks a law, with the first law that it breaks.
// (In a closure of `try_for_each` it would not be known that `at` is within.)
pub fn judge(machine: &Machine) -> Result<(), Fault>
    ensures { Tested machine.now.nodes.items result }
{
    let nodes = machine.nodes.as_slice();
    for at in 0..nodes.len() {
        let member = Member { nodes, at };
        member.test().map_err(|law| Fault::Unlawful {
            node: member.at,
            law,
        })?;
    }
    Ok(())
}

// The theorem that no two nodes of a lawful machine share parent, device and function.
pub fn no_twins()
    ensures { NoTwins }
{}

// The theorem that each device of a lawful machine has a function 0 that tells of the others.
pub fn all_headed()
    ensures { AllHeaded }
{}

// The theorem that the test has one answer for a machine.
pub fn one_answer()
    ensures { OneAnswer }
{}
