// Normal netlists, which rewriting and merging leave as they are: there is no code here.
#![tactic(auto)]
