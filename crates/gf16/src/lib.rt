// GF(2^16) and the order of alpha: the facts stand in specs/.
#![tactic(auto)]
