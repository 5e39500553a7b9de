// The run of the rewriter, after netlist/src/rewrite.rs, over its state, its rules and the cycle of rules and adder.
#![tactic(auto)]

pub mod run;
