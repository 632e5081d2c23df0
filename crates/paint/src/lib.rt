//! Painting: a row's commands and depth fills become pieces, one step, a whole row or many rows at a call. `begin_painting`, `paint_step`, `paint_row`,
//! `paint_rows`, `paint_own_row`, the three runs of a row's depth words, `is_hidden`, `can_skip` and those of `canvas::reading` are public calls; the others are parts of them,
//! and the judges of `screen` are also a host's.
#![tactic(auto)]

pub mod canvas;
pub mod command;
pub mod own;
pub mod pieces;
pub mod rows;
pub mod shown;
pub mod turns;
pub mod whole;

pub use crate::canvas::{
    Canvas, Progress, RowLengths, Stored, begin_painting, can_skip, depth_cmd, is_hidden,
    render_cmd, row_lengths, row_progress, unset_runs, unset_runs_and_write, visible_runs,
};
pub use crate::own::paint_own_row;
pub use crate::pieces::Stepped;
pub use crate::rows::{RowRange, paint_rows};
pub use crate::whole::{paint_row, paint_step};
