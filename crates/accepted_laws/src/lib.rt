// What checking's acceptance gives to the laws of orders and rewriting: there is no code here.
#![tactic(auto)]
