// The mathematics that the rules and the demands stand on, for any prime q and any k: all of it stands in specs/.
#![tactic(auto)]
