// The laws of the search's loop over plain lists: definitions in specs/, laws in proofs/, no code.
// Assumes nothing.
#![tactic(auto)]
