// The theory of a label-setting search over any type of states, and of the lists of figures by which states compare: definitions in
// specs/, laws in proofs/, no code.
// Assumes nothing.
#![tactic(auto)]
