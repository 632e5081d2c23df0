//! Proofs only: what is told of one tile into lent words is the rules' account of it, and a reason read off them is theirs.
#![tactic(auto)]
