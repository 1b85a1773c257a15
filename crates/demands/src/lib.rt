// The user's three demands, over the operations' contracts: definitions in specs/, theorems in proofs/Demands.antt, no code.
// Assumes nothing.
#![tactic(auto)]
