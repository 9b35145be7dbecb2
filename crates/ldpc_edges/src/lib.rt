#![tactic(auto)]

// What a check covers and what the encoder promises: the definitions and their laws stand in specs/.
