// One rewriting is enough: there is no code here.
#![tactic(auto)]
