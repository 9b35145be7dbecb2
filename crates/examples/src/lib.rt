// The scope's starred bench examples: the theorem stands in specs/.
#![tactic(auto)]
