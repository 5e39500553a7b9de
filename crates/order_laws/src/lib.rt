// Laws of the orders: there is no code here.
#![tactic(auto)]
