// Hours when processors may run (W-212), over an abstract plan: definitions in specs/, theorems in proofs/; no code.
// The code is `calendar_calls::windows`.
#![tactic(auto)]
