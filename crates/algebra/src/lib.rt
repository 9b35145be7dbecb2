// Rings and fields of characteristic 2, registers, roots and errors: definitions and laws stand in specs/, and in proofs/ why a shortest register
// finds the errors of a binary word and is the only one.
#![tactic(auto)]
