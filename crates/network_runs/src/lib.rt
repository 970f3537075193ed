// Runs of processors that share no memory, by the calls on a recipe's bytes: definitions in specs/, theorems in proofs/, no code.
// At the top each processor has whole areas of its own. In specs/part and proofs/part each is lent its own part alone.
#![tactic(auto)]
