// Reads and writes of a machine by name.
ghost use Rattle.std.specs.Prelude.{◌≡◌, ◌<◌, IfSome, vec_len};
ghost use Rattle.machine.specs.Machine.{put_in, chosen, read_of, written, SelectionStays};

use super::{Dword, Machine};
use pci::Register;

impl Dword {
    // Puts the bits under the mask.
    fn put(&mut self, new: u32)
        ensures { self.new ≡ put_in self.old new }
    {
        self.value = (new & self.mask) | (self.value & !self.mask);
    }
}

impl Machine {
    // The node whose dword is meant.
    fn choose(&self, register: Register) -> Option<usize>
        ensures picks { result ≡ chosen self.now.nodes.items register.at register.offset }
        ensures within { IfSome result (λ i. i < vec_len self.now.nodes) }
    {
        if register.offset % 4 == 0 {
            self.find(register.at)
        } else {
            None
        }
    }

    // The dword of the node that is selected; all ones where none is.
    pub fn read(&self, register: Register) -> u32
        ensures { result ≡ read_of self.now.nodes.items register.at register.offset }
    {
        self.choose(register).map_or(0xFFFF_FFFF, |i| {
            self.nodes[i].dwords[register.offset as usize / 4].value
        })
    }

    // Puts the bits under the mask into the dword of the node that is selected; nothing where none is.
    pub fn write(&mut self, register: Register, value: u32)
        ensures { self.new.nodes.items ≡ written self.old.nodes.items register.at register.offset value }
    {
        if let Some(i) = self.choose(register) {
            self.nodes[i].dwords[register.offset as usize / 4].put(value);
        }
    }
}

// The theorem that a write to another dword than the bus numbers' and the kind's moves no name.
pub fn selection_stays()
    ensures { SelectionStays }
{}
