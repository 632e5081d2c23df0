//! Depth of one row (depth.rs): the split of an opaque span, the row's summary, and the runs of its depth words. `forms` has the same over lent structs and
//! slices of spans.
#![tactic(auto)]

pub mod forms;
pub mod minima;
pub mod runs;
pub mod search;
pub mod split;
pub mod state;

pub use minima::{Depth, is_hidden, minima_room};
pub use runs::{unset_runs, unset_runs_and_write, visible_runs};
pub use split::{Split, split_opaque_span};
pub use state::DepthState;
