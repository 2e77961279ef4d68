// The meaning of the rules: definitions in specs/, theorems in proofs/. There is no code here; the other crates' code is proved
// against these definitions.

#![tactic(auto)]
