// The lines that the lister prints: there is no code here.
#![tactic(auto)]
