// Laws of the rules: there is no code here.
#![tactic(auto)]
