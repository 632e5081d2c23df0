//! Proofs only: compacting a row at the words is the rules' compacting of the row.
#![tactic(auto)]
