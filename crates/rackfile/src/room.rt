// Where the nodes of a machine file are put.
ghost use Rattle.std.specs.Prelude.{◌≡◌, ◌≤◌, vec_len, vec_capacity};

use machine::Machine;
use std::alloc::{AllocError, Global};

// A machine of no node yet, with room for the 80 that a file may have.
#[derive(Drop)]
pub struct Room {
    pub(crate) machine: Machine,
    ghost empty: { vec_len machine.nodes ≡ 0 },
    ghost wide: { 80 ≤ vec_capacity machine.nodes },
}

impl Room {
    // Takes the room from the heap.
    pub fn new(heap: Global) -> Result<Room, AllocError> {
        let machine = Machine::with_room(heap)?;
        Ok(Room { machine })
    }
}
