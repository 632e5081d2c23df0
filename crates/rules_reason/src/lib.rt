//! Why a tile shows what it shows, and what it receives, as definitions that compute, with tests of them. No code.
#![tactic(auto)]
