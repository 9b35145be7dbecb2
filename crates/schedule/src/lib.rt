#![tactic(auto)]

// The round rule, a word alone, and demand 3 as a theorem that joins them: the definitions stand in specs/, what follows of them in proofs/.
