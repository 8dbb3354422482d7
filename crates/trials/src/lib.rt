//! The library tried on examples: whole racks, each refusal, and an access that reaches few buses.
#![tactic(auto)]

pub mod few;
#[cfg(test)]
mod racks;
#[cfg(test)]
mod refusals;
#[cfg(test)]
mod run;
