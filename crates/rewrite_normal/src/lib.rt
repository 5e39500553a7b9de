// Rewriting a netlist without and-inverters gives a normal one: there is no code here.
#![tactic(auto)]
