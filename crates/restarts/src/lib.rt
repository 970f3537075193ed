// Processors that crash and start again, and messages that are posted again, over an abstract plan: definitions in specs/, theorems in proofs/, no code.
#![tactic(auto)]
