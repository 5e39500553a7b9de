// Which arms of the rules make an undefined level definite: there is no code here.
#![tactic(auto)]
