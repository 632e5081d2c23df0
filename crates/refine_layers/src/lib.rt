//! Proofs only: which rows a closing layer has touched, at the words and in the rules.
#![tactic(auto)]
