//! Theorems on which nodes a name selects, read from the host downwards.
#![tactic(auto)]

ghost use Rattle.names.specs.Selection.{AllAreSelected, LowestActs, OneFunctionToAName};

// The search up the parents finds exactly what the reading downwards selects.
pub fn all_are_selected()
    ensures { AllAreSelected }
{}

// Of the nodes that a name selects the lowest acts.
pub fn lowest_acts()
    ensures { LowestActs }
{}

// Where places and the numbers of siblings are apart, a name selects one node at most.
pub fn one_function_to_a_name()
    ensures { OneFunctionToAName }
{}
