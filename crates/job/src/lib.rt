//! The job: a state for each stage it has come to, and the calls that lead from one to the next.
#![tactic(auto)]

use pci::fault::Fault;

pub mod scan;

// Nothing has been done yet.
#[derive(Drop)]
pub struct Fresh {}

// The rack's functions are booked and its buses numbered.
#[derive(Drop)]
pub struct Numbered {
    functions: u8,
}

// A refused call gives the job back, with the refusal.
#[derive(Drop)]
pub struct Refused<S> {
    pub job: S,
    pub fault: Fault,
}

// Where the job is let go, the refusal is left.
impl<S: Drop> From<Refused<S>> for Fault {
    ghost use Rattle.std.specs.Prelude.{◌≡◌};

    ghost from_gives = { λ r f. f ≡ r.fault };

    fn from(refused: Refused<S>) -> Fault {
        refused.fault
    }
}
