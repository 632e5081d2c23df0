/// Painting over a whole screen: begin, what is judged before a row is painted, the runs of a row's depth words, `can_skip`. `begin_painting`, `unset_runs`,
/// `visible_runs`, `unset_runs_and_write`, `is_hidden`, `can_skip` and those of `reading` are public calls: they have no `requires`. The others are parts.
pub mod begin;
pub mod judge;
pub mod reading;
pub mod rows;
pub mod stored;

pub use crate::pieces::Stepped;
pub use begin::begin_painting;
pub use reading::{Progress, RowLengths, depth_cmd, render_cmd, row_lengths, row_progress};
pub use rows::{can_skip, is_hidden, unset_runs, unset_runs_and_write, visible_runs};
pub use stored::{Canvas, RowWords, Stored};
