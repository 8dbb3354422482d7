//! Listings: lines of bytes in a lent buffer, each of them whole or not there.
#![tactic(auto)]

mod digits;
mod fault;
mod fields;
mod kept;
mod line;
mod numbers;
mod rows;

pub use fault::list_fault;
pub use numbers::list_numbers;
