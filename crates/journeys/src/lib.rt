// The definition of planning: definitions in specs/, laws and theorems in proofs/, no code.
// Assumes nothing.
#![tactic(auto)]
