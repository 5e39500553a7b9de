// How long a reply holds every result: there is no code here.
#![tactic(auto)]
