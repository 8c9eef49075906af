// Halving, and everything that holds of it whatever is halved: the definition is in specs/, its laws are in proofs/. No
// code.
#![tactic(auto)]
