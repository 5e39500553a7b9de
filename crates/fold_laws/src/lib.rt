// Theorems on folds in the bit order; no code.
#![tactic(auto)]
