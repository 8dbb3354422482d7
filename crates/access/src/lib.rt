//! An access to a machine: reads and writes by name up to a last bus, which may get lost.
#![tactic(auto)]

ghost use Rattle.std.specs.Prelude.{◌≡◌};
ghost use Rattle.access.specs.Access.{State, Reads, Writes};

use pci::{Loss, Register};

pub mod board;

// What it means is one record: the machine that it reaches, its last bus, and the loss once it is lost.
// A read or a write may be lost at any time: `Reads` and `Writes` say all that is known then, and the rest exactly.
pub trait Access {
    ghost state: { Self → State };

    // The highest bus that it reaches.
    fn last_bus(&self) -> u8
        ensures { result ≡ (state self.now).last };

    // The read or write at which it was lost.
    fn loss(&self) -> Option<Loss>
        ensures { result ≡ (state self.now).loss };

    // The dword of the node that the name selects.
    fn read(&mut self, register: Register) -> Result<u32, Loss>
        ensures when_lost_left_open { Reads (state self.old) register.at register.offset result (state self.new) };

    // Puts the bits under the mask into that dword.
    fn write(&mut self, register: Register, value: u32) -> Result<(), Loss>
        ensures when_lost_left_open { Writes (state self.old) register.at register.offset value result (state self.new) };
}
