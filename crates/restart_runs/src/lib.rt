// Runs of processors that crash and start again, by the calls on a recipe's bytes: definitions in specs/, theorems in proofs/, no code.
#![tactic(auto)]
