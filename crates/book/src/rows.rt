// The rows: plain data.
use pci::Name;
use pci::numbers::Numbers;

// What a function is; a bridge with its three bus numbers.
#[derive(Clone, Copy)]
pub enum RowKind {
    Endpoint,
    Bridge(Numbers),
}

// A function: the row of the bridge above it (none below the host), its name, its dword 00h and its kind.
#[derive(Clone, Copy)]
pub struct FunctionRow {
    pub parent: Option<u8>,
    pub at: Name,
    pub id: u32,
    pub kind: RowKind,
}

// What a register block is; a memory block with its prefetch bit.
#[derive(Clone, Copy)]
pub enum BarKind {
    Io,
    Memory { prefetch: bool },
}

// A register block: the row of its function, its index there, its kind, its size and its base.
#[derive(Clone, Copy)]
pub struct BarRow {
    pub row: u8,
    pub index: u8,
    pub kind: BarKind,
    pub size: u32,
    pub base: u32,
}
