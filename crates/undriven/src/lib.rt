// Which field refusal 7 names, and that every call tells it: there is no code here.
#![tactic(auto)]
