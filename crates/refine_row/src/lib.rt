//! Proofs only: a row's words are those of a row of the rules, before and after each act.
#![tactic(auto)]
