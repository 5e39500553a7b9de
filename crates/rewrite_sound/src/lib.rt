// What rewriting an accepted ticket gives passes checking, but for its length: there is no code here.
#![tactic(auto)]
