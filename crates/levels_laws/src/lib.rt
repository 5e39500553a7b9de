// Laws of valuations: there is no code here.
#![tactic(auto)]
