//! The machine: nodes with their dwords, which of them a name selects, and reads and writes by name.
#![tactic(auto)]

ghost use Rattle.std.specs.Prelude.{◌≡◌, ◌≤◌, [], IfOk, vec_capacity};
ghost use Rattle.machine.specs.Nodes.{fresh, named};

use pci::kind::Kind;
use std::alloc::{AllocError, Global};

pub mod dwords;
pub mod select;

// The most nodes that a machine file has.
pub const NODES: usize = 80;

// The writable bits of a bridge's 18h, 1Ch and 20h: its bus numbers and its two windows.
pub const NUMBERS_MASK: u32 = 0x00FF_FFFF;

pub const IO_WINDOW_MASK: u32 = 0x0000_F0F0;

pub const MEMORY_WINDOW_MASK: u32 = 0xFFF0_FFF0;

// One dword of a function: its value, and the mask of its writable bits.
#[derive(Clone, Copy)]
pub struct Dword {
    pub value: u32,
    pub mask: u32,
}

// One function of the rack: where it hangs, and its 64 dwords.
#[derive(Clone, Copy)]
pub struct Node {
    // The node of the bridge above, or the host.
    pub parent: Option<u8>,
    pub device: u8,
    pub function: u8,
    pub dwords: [Dword; 64],
}

// The nodes, from 0.
#[derive(Drop)]
pub struct Machine {
    pub nodes: Vec<Node>,
}

impl Node {
    // A node of which no dword is named.
    pub fn new(parent: Option<u8>, device: u8, function: u8) -> Node
        ensures { result ≡ fresh parent device function }
    {
        let mut dwords = [Dword { value: 0, mask: 0 }; 64];
        dwords[1].mask = 0x0000_0007;
        Node {
            parent,
            device,
            function,
            dwords,
        }
    }

    // Names the dword at `offset`; a bridge has its masks with its kind, and a later line may name them.
    pub fn name(&mut self, offset: u8, dword: Dword)
        ensures { self.new ≡ named self.old offset dword.value dword.mask }
    {
        self.dwords[offset as usize / 4] = dword;
        if offset == 0x0C && matches!(Kind::in_header(dword.value), Ok(Kind::Bridge)) {
            self.dwords[6].mask = NUMBERS_MASK;
            self.dwords[7].mask = IO_WINDOW_MASK;
            self.dwords[8].mask = MEMORY_WINDOW_MASK;
        }
    }
}

impl Machine {
    // A machine of no node yet, with room for 80.
    pub fn with_room(heap: Global) -> Result<Machine, AllocError>
        ensures { IfOk result (λ m. (m.nodes.items ≡ []) × (80 ≤ vec_capacity m.nodes)) }
    {
        let nodes = Vec::with_capacity(heap, NODES)?;
        Ok(Machine { nodes })
    }
}
