//! A month's figures: what the depth stage saves of each recording of a list, and of all of them, in whole numbers. `figures` is a public call; the others are
//! parts of it: where a function asks something, its callers have judged it.
#![tactic(auto)]

pub mod counts;
pub mod fills;
pub mod list;
pub mod recordings;
pub mod rows;
pub mod screens;

pub use counts::Figures;
pub use list::{Recordings, figures};
