//! A rack's sheet: from the bytes of a machine file to the bytes that are printed.
#![tactic(auto)]

pub mod desk;
pub mod print;
