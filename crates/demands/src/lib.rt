// The top theorems on one page: each of the three demands, and document 01's worked cases, with proofs that cite the crate
// that has them. No code.
#![tactic(auto)]
