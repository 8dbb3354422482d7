//! Reads the machine file: its bytes become a rack, or the number of the first line that breaks its form.
#![tactic(auto)]

mod builder;
mod field;
pub mod line;
pub mod reader;
pub mod room;
