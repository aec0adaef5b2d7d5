// The folds over indices that every loop of the project uses, and their laws: all of it stands in specs/.
#![tactic(auto)]
