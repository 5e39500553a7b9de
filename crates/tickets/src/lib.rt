// Tables of tickets and calls, computed from the definitions: there is no code here.
#![tactic(auto)]
