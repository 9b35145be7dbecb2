// What the kit's library lacks on numbers, xor and lists: the laws stand in specs/.
#![tactic(auto)]
