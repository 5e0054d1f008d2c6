// The rules of CRI reading, writing, resolving and printing, as definitions (specs/) and laws about them (proofs/).
// There is no run-time code in this crate.
#![tactic(auto)]
