// One word apart from memory: a value, a check, an iteration, the code that it goes by: definitions and laws stand in specs/, the proofs of the two smallest magnitudes in proofs/.
#![tactic(auto)]
