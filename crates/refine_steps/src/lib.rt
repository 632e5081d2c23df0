//! Proofs only: each building step at the words is the rules' step.
#![tactic(auto)]
