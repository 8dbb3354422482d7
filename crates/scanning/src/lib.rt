//! The work of scan, over any access: from bridge to bridge, down into each new bus and back up by the parent rows.
#![tactic(auto)]

mod bus;
mod climb;
mod probe;
mod registers;
mod scan;
pub mod walk;
