// The change queue, after netlist/src/design.rs.
#![tactic(auto)]

pub mod queue;
