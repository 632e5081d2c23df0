//! A sequence of calls on one screen, run one after another: their words in, the words of their answers out. oracle/README.md has both.
//! A harness for runs against the original: what a call promises is in its own contract.
#![tactic(auto)]

mod answers;
mod build;
mod call;
mod forge;
mod painting;
mod reading;
mod sequence;
mod show;
mod tables;
mod words;

pub use sequence::run;
pub use tables::Tables;
pub use words::{Words, word_at};
