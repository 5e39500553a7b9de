// What compacting and merging keep: there is no code here.
#![tactic(auto)]
