//! Names, register fields and refusals: what every layer speaks of.
#![tactic(auto)]

pub mod fault;
pub mod field;
pub mod kind;
pub mod numbers;

// Where a function is: bus, device on the bus, function of the device.
#[derive(Clone, Copy, PartialEq, Eq)]
pub struct Name {
    pub bus: u8,
    pub device: u8,
    pub function: u8,
}

// A register of a function: the dword at this byte offset.
#[derive(Clone, Copy, PartialEq, Eq)]
pub struct Register {
    pub at: Name,
    pub offset: u8,
}

// An access was lost: the register that was to be read or written.
#[derive(Clone, Copy, PartialEq, Eq)]
pub struct Loss {
    pub register: Register,
}

// The two address spaces, with their numbers.
#[derive(Clone, Copy, PartialEq, Eq)]
pub enum Space {
    Memory = 1,
    Io = 2,
}

// The laws that a machine keeps at reset, with their numbers: the order in which they are tested.
#[derive(Clone, Copy, PartialEq, Eq)]
pub enum Law {
    Parent = 1,
    Place = 2,
    Device = 3,
    Identity = 4,
    Command = 5,
    Bridge = 6,
    Bar = 7,
}
