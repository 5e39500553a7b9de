// Merging a normal netlist leaves it as it is: there is no code here.
#![tactic(auto)]
