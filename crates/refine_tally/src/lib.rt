//! Proofs only: what is counted at the words of a row, a screen or a recording is what the rules count.
#![tactic(auto)]
