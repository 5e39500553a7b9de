// What rewriting keeps: there is no code here.
#![tactic(auto)]
