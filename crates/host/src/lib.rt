//! The calls for a host in C or Rust: structs of words and of lent slices, by reference, and slices of words or of spans. A slice crosses as a pointer and a
//! length, beside others or within a struct. Each call gives the rules' number, 0 where it is done. All `coarse_` functions are public calls: they have no
//! `requires`. The others are parts of them.
#![tactic(auto)]

mod border;
pub mod build;
pub mod compacting;
pub mod editions;
pub mod figures;
pub mod layer;
pub mod lengths;
pub mod list;
pub mod painting;
pub mod reading;
pub mod reasons;
pub mod results;
pub mod rows;
pub mod spans;
pub mod state;
mod sure;
pub mod tile_list;
