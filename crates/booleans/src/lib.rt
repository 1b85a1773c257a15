// One of two values, by a test, in specs/Pick.antt; laws of tests, which the proofs of most layers cite, in
// proofs/Tests.antt. No code. Assumes nothing.
#![tactic(auto)]
