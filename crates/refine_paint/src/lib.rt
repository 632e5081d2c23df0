//! Proofs only: a painting step at the words is the rules' painting step.
#![tactic(auto)]
