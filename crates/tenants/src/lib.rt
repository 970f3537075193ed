// Two tenants on the same processors are all definitions and theorems, no code: specs/ states them, proofs/ proves them.
#![tactic(auto)]
