//! Proofs only: the recording call at the words is the rules' walk of the file.
#![tactic(auto)]
