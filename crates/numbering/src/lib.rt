//! The rule of scan, and what follows from it alone. The code that keeps to it stands in the crate `scanning`.
#![tactic(auto)]

ghost use Rattle.numbering.specs.Law.{NumbersAlone};

// The theorem that a scan, granted, refused or lost, writes the dwords 18h alone.
pub fn scan_writes_numbers_alone()
    ensures { NumbersAlone }
{}
