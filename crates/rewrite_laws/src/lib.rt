// Laws of rewriting: there is no code here.
#![tactic(auto)]
