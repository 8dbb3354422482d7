//! The book: what a job has found and decided, row by row.
#![tactic(auto)]

pub mod bars;
pub mod book;
pub mod functions;
pub mod rows;
pub mod sound;
pub mod table;
