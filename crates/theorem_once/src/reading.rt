//! Each call that reads a row without painting it: paint's, and the host's.
ghost use Rattle.std.specs.Prelude.{◌≡◌};
ghost use Rattle.paint.specs.StoredCmds.{stored_words, lengths_of, command_read, depth_read, progress_of};
ghost use Rattle.host.specs.Reading.{lengths_in, cmd_in, depth_in, progress_in};
ghost use Rattle.theorem_once.specs.Reading.{lengths-words, cmd-words, depth-words, progress-words};

use crate::Twice;
use cmd::command::RenderCmd;
use cmd::depth_fill::DepthFill;
use host::reading::{
    DepthCmdWords, ProgressWords, RenderCmdWords, RowLengthsWords, coarse_depth_cmd,
    coarse_progress, coarse_render_cmd, coarse_row_lengths,
};
use host::state::StateWords;
use paint::{
    Canvas, Progress, RowLengths, Stored, depth_cmd, render_cmd, row_lengths, row_progress,
};
use screen::Screen;
use sizes::answers::Refusal;

/// Two calls of `row_lengths`.
pub fn lengths_twice(
    a: &Stored<'_>,
    b: &Stored<'_>,
    screen: Screen,
    row: usize,
) -> Twice<Result<RowLengths, Refusal>>
    ensures { stored_words a.now ≡ stored_words b.now → lengths_of result.0 ≡ lengths_of result.1 }
{
    (row_lengths(screen, row, a), row_lengths(screen, row, b))
}

/// Two calls of `render_cmd`.
pub fn cmd_twice(
    a: &Stored<'_>,
    b: &Stored<'_>,
    screen: Screen,
    row: usize,
    number: usize,
) -> Twice<Result<RenderCmd, Refusal>>
    ensures { stored_words a.now ≡ stored_words b.now → command_read result.0 ≡ command_read result.1 }
{
    (
        render_cmd(screen, row, a, number),
        render_cmd(screen, row, b, number),
    )
}

/// Two calls of `depth_cmd`.
pub fn depth_twice(
    a: &Stored<'_>,
    b: &Stored<'_>,
    screen: Screen,
    row: usize,
    number: usize,
) -> Twice<Result<DepthFill, Refusal>>
    ensures { stored_words a.now ≡ stored_words b.now → depth_read result.0 ≡ depth_read result.1 }
{
    (
        depth_cmd(screen, row, a, number),
        depth_cmd(screen, row, b, number),
    )
}

/// Two calls of `row_progress`.
pub fn progress_twice(
    a_painting: &[u32],
    b_painting: &[u32],
    screen: Screen,
    row: usize,
) -> Twice<Result<Progress, Refusal>>
    ensures { a_painting.now ≡ b_painting.now → progress_of result.0 ≡ progress_of result.1 }
{
    (
        row_progress(screen, row, a_painting),
        row_progress(screen, row, b_painting),
    )
}

/// What a row's counts are read from, and where they go.
#[derive(Drop)]
pub struct LengthsHost<'a> {
    pub state: StateWords,
    pub stored: Stored<'a>,
    pub lengths: RowLengthsWords,
}

/// Two calls of `coarse_row_lengths`.
pub fn host_lengths_twice(
    a: &mut LengthsHost<'_>,
    b: &mut LengthsHost<'_>,
    row: usize,
) -> Twice<u32>
    ensures { lengths-words a.old ≡ lengths-words b.old
        → (result.0 ≡ result.1) × (lengths_in a.new.lengths ≡ lengths_in b.new.lengths) }
{
    (
        coarse_row_lengths(&a.state, &a.stored, row, &mut a.lengths),
        coarse_row_lengths(&b.state, &b.stored, row, &mut b.lengths),
    )
}

/// What a command is read from, and where it goes.
#[derive(Drop)]
pub struct CmdHost<'a> {
    pub state: StateWords,
    pub stored: Stored<'a>,
    pub cmd: RenderCmdWords,
}

/// Two calls of `coarse_render_cmd`.
pub fn host_cmd_twice(
    a: &mut CmdHost<'_>,
    b: &mut CmdHost<'_>,
    row: usize,
    number: usize,
) -> Twice<u32>
    ensures { cmd-words a.old ≡ cmd-words b.old
        → (result.0 ≡ result.1) × (cmd_in a.new.cmd ≡ cmd_in b.new.cmd) }
{
    (
        coarse_render_cmd(&a.state, &a.stored, row, number, &mut a.cmd),
        coarse_render_cmd(&b.state, &b.stored, row, number, &mut b.cmd),
    )
}

/// What a depth fill is read from, and where it goes.
#[derive(Drop)]
pub struct DepthHost<'a> {
    pub state: StateWords,
    pub stored: Stored<'a>,
    pub fill: DepthCmdWords,
}

/// Two calls of `coarse_depth_cmd`.
pub fn host_depth_twice(
    a: &mut DepthHost<'_>,
    b: &mut DepthHost<'_>,
    row: usize,
    number: usize,
) -> Twice<u32>
    ensures { depth-words a.old ≡ depth-words b.old
        → (result.0 ≡ result.1) × (depth_in a.new.fill ≡ depth_in b.new.fill) }
{
    (
        coarse_depth_cmd(&a.state, &a.stored, row, number, &mut a.fill),
        coarse_depth_cmd(&b.state, &b.stored, row, number, &mut b.fill),
    )
}

/// What a row's progress is read from, and where it goes.
#[derive(Drop)]
pub struct ProgressHost<'a> {
    pub state: StateWords,
    pub canvas: Canvas<'a>,
    pub progress: ProgressWords,
}

/// Two calls of `coarse_progress`. Of the canvas, the painting words alone decide.
pub fn host_progress_twice(
    a: &mut ProgressHost<'_>,
    b: &mut ProgressHost<'_>,
    row: usize,
) -> Twice<u32>
    ensures { progress-words a.old ≡ progress-words b.old
        → (result.0 ≡ result.1) × (progress_in a.new.progress ≡ progress_in b.new.progress) }
{
    (
        coarse_progress(&a.state, &a.canvas, row, &mut a.progress),
        coarse_progress(&b.state, &b.canvas, row, &mut b.progress),
    )
}
