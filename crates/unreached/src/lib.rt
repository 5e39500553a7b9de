// Nothing that could stop the Rust is reached by an accepted ticket: there is no code here.
#![tactic(auto)]
