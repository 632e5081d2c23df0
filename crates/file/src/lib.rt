//! A recording's file: its form (answer 3), its records and their order (answers 4 and 5). Parts of the recording call. Which word is which stands here alone:
//! callers ask a `Recording` for its records by their numbers.
#![tactic(auto)]

mod form;
mod judge;
mod recording;
mod records;

pub use form::words_of_bytes;
pub use recording::{File, Recording};
pub use records::{Layer, Node};
