// The definition of the rewriter, after netlist/src/rewrite.rs (specs/). Its code is in `rewriter_state`, `rewriter_cycle` and `rewriter`.
#![tactic(auto)]
