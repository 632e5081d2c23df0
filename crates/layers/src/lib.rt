//! What opens a layer and what draws on the rows of a box: a push (rule 8) and a filter fill (rule 11). `push_layer` and `filter_fill` are public calls; the
//! others are parts of them. The story of a tile has `filter_box` and `draws_nothing` too.
#![tactic(auto)]

pub mod filter;
pub mod push;
pub mod rows;

pub use filter::{FilterFill, filter_fill, filter_judged};
pub use push::{push_judged, push_layer};
