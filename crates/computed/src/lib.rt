// Theory alone: the definitions of `rules` held against computed examples, on each side of every edge. See specs/.
#![tactic(auto)]
