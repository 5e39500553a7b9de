// Rewriting a normal netlist gives one that pairs off with it: there is no code here.
#![tactic(auto)]
