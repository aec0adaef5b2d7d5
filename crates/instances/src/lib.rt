// Computed plays of the definitions of `rules`, and histories for theorems of `demands`: nothing runs here.
#![tactic(auto)]
