// Demands 2 and 3 are theorems about the definitions of `rules`: nothing runs here.
#![tactic(auto)]
