//! Proofs only: the text of a recording's rows is the rules' text of them.
#![tactic(auto)]
