// The design's `cell_cache` never answers in rewriting: there is no code here.
#![tactic(auto)]
