// Theory alone: the demands of the order as theorems, over the definitions in `rules` and the contracts. See specs/.
#![tactic(auto)]
