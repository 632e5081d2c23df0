//! What a host reads of a row without painting it: how many render commands and depth fills it has, each by its number, and how far it is painted. Each
//! refuses as the call of its name in `paint`. And the version of the library.
ghost use Rattle.std.specs.Prelude.{◌≡◌, ◌≤◌, [], ◌∷◌};
ghost use Rattle.rules.specs.Answers.{answer};
ghost use Rattle.span.specs.Spans.{tiles};
ghost use Rattle.cmd.specs.Commands.{command};
ghost use Rattle.paint.specs.StoredCmds.{stored_words, lengths_of, command_read, depth_read, progress_of};
ghost use Rattle.host.specs.Held.{words_in};
ghost use Rattle.host.specs.Reading.{lengths_in, cmd_in, depth_in, progress_in, fill-parts, cmd-parts, depth-parts, lengths-parts, gone-parts, of-some, read-left, lengths_call, cmd_call, depth_call, progress_call};

use crate::state::{StateWords, before_4, screen_at, screen_of};
use cmd::command::{Fill, RenderCmd};
use cmd::depth_fill::DepthFill;
use paint::{
    Canvas, Progress, RowLengths, Stored, depth_cmd, render_cmd, row_lengths, row_progress,
};
use sizes::answers::Refusal;

/// How many render commands and depth fills a row has. Laid out as in C.
#[repr(C)]
#[derive(Clone, Copy, Debug, PartialEq, Eq)]
pub struct RowLengthsWords {
    pub render_cmds: u32,
    pub depth_cmds: u32,
}

/// A render command: its tag (1 and 2 PaintFill without and with alpha, 3 and 4 LayerFill, 5 and 6 PushBuf without and with a span, 7 PopBuf), the first tile
/// and the end of its span, its alpha index and its attribute; 0 for what the tag has none of. Laid out as in C.
#[repr(C)]
#[derive(Clone, Copy, Debug, PartialEq, Eq)]
pub struct RenderCmdWords {
    pub tag: u32,
    pub first: u32,
    pub end: u32,
    pub alpha_idx: u32,
    pub attrs_idx: u32,
}

/// A depth fill: its first bucket and the end of its buckets, and its paint attribute. Laid out as in C.
#[repr(C)]
#[derive(Clone, Copy, Debug, PartialEq, Eq)]
pub struct DepthCmdWords {
    pub first: u32,
    pub end: u32,
    pub attrs_idx: u32,
}

/// How far a row is painted: steps done, and how many buffers are open after them. Laid out as in C.
#[repr(C)]
#[derive(Clone, Copy, Debug, PartialEq, Eq)]
pub struct ProgressWords {
    pub steps: u32,
    pub nesting: u32,
}

// A fill, `tag` being that of one without alpha.
fn fill_words(fill: Fill, tag: u32) -> RenderCmdWords
    requires { tag ≤ 3 }
    ensures { cmd_in result ≡ fill-parts tag (tiles fill.span) fill.alpha fill.attrs_idx }
{
    let (tag, alpha_idx) = match fill.alpha {
        None => (tag, 0),
        Some(alpha) => (tag + 1, alpha),
    };
    RenderCmdWords {
        tag,
        first: fill.span.first,
        end: fill.span.end,
        alpha_idx,
        attrs_idx: fill.attrs_idx,
    }
}

// A buffer's push or pop, with a span of tiles or 0, 0.
fn buffer_words(tag: u32, first: u32, end: u32) -> RenderCmdWords
    ensures { cmd_in result ≡ tag ∷ first ∷ «end» ∷ 0 ∷ 0 ∷ [] }
{
    RenderCmdWords {
        tag,
        first,
        end,
        alpha_idx: 0,
        attrs_idx: 0,
    }
}

// A command by its parts.
fn cmd_words(cmd: RenderCmd) -> RenderCmdWords
    ensures { cmd_in result ≡ cmd-parts (command cmd) }
{
    match cmd {
        RenderCmd::PaintFill(fill) => fill_words(fill, 1),
        RenderCmd::LayerFill(fill) => fill_words(fill, 3),
        RenderCmd::PushBuf(None) => buffer_words(5, 0, 0),
        RenderCmd::PushBuf(Some(span)) => buffer_words(6, span.first, span.end),
        RenderCmd::PopBuf => buffer_words(7, 0, 0),
    }
}

// How many there are, where it is not refused. It gives the number of the call, as all here do.
fn put_lengths(done: Result<RowLengths, Refusal>, lengths: &mut RowLengthsWords) -> u32
    ensures { answer result (lengths_in lengths.new) ≡ read-left lengths-parts (lengths_in lengths.old) (lengths_of done) }
{
    match done {
        Ok(read) => {
            *lengths = RowLengthsWords {
                render_cmds: read.render_cmds,
                depth_cmds: read.depth_cmds,
            };
            0
        }
        Err(refusal) => refusal.number(),
    }
}

// The command, where it is not refused.
fn put_cmd(done: Result<RenderCmd, Refusal>, cmd: &mut RenderCmdWords) -> u32
    ensures { answer result (cmd_in cmd.new) ≡ read-left (of-some cmd-parts) (cmd_in cmd.old) (command_read done) }
{
    match done {
        Ok(read) => {
            *cmd = cmd_words(read);
            0
        }
        Err(refusal) => refusal.number(),
    }
}

// The depth fill, where it is not refused.
fn put_depth(done: Result<DepthFill, Refusal>, fill: &mut DepthCmdWords) -> u32
    ensures { answer result (depth_in fill.new) ≡ read-left (of-some depth-parts) (depth_in fill.old) (depth_read done) }
{
    match done {
        Ok(read) => {
            *fill = DepthCmdWords {
                first: read.buckets.first,
                end: read.buckets.end,
                attrs_idx: read.attrs_idx,
            };
            0
        }
        Err(refusal) => refusal.number(),
    }
}

// How far the row is painted, where it is not refused.
fn put_progress(done: Result<Progress, Refusal>, progress: &mut ProgressWords) -> u32
    ensures { answer result (progress_in progress.new) ≡ read-left gone-parts (progress_in progress.old) (progress_of done) }
{
    match done {
        Ok(read) => {
            *progress = ProgressWords {
                steps: read.steps,
                nesting: read.nesting,
            };
            0
        }
        Err(refusal) => refusal.number(),
    }
}

/// How many render commands and depth fills a row has.
#[unsafe(no_mangle)]
pub extern "C" fn coarse_row_lengths(
    state: &StateWords,
    stored: &Stored<'_>,
    row: usize,
    lengths: &mut RowLengthsWords,
) -> u32
    ensures { answer result (lengths_in lengths.new) ≡ lengths_call row (stored_words stored.now) (words_in state.now) (lengths_in lengths.old) }
{
    let Some(screen) = screen_of(state, true) else {
        return before_4(row_lengths(screen_at(state), row, stored));
    };
    put_lengths(row_lengths(screen, row, stored), lengths)
}

/// A row's render command of a number, from 0 on, in the order in which they are painted.
#[unsafe(no_mangle)]
pub extern "C" fn coarse_render_cmd(
    state: &StateWords,
    stored: &Stored<'_>,
    row: usize,
    number: usize,
    cmd: &mut RenderCmdWords,
) -> u32
    ensures { answer result (cmd_in cmd.new) ≡ cmd_call row (stored_words stored.now) number (words_in state.now) (cmd_in cmd.old) }
{
    let Some(screen) = screen_of(state, true) else {
        return before_4(render_cmd(screen_at(state), row, stored, number));
    };
    put_cmd(render_cmd(screen, row, stored, number), cmd)
}

/// A row's depth fill of a number, from 0 on; they are painted from the last to the first, before the commands.
#[unsafe(no_mangle)]
pub extern "C" fn coarse_depth_cmd(
    state: &StateWords,
    stored: &Stored<'_>,
    row: usize,
    number: usize,
    fill: &mut DepthCmdWords,
) -> u32
    ensures { answer result (depth_in fill.new) ≡ depth_call row (stored_words stored.now) number (words_in state.now) (depth_in fill.old) }
{
    let Some(screen) = screen_of(state, true) else {
        return before_4(depth_cmd(screen_at(state), row, stored, number));
    };
    put_depth(depth_cmd(screen, row, stored, number), fill)
}

/// How far a row is painted: steps done since painting began, and how many buffers are open after them.
#[unsafe(no_mangle)]
pub extern "C" fn coarse_progress(
    state: &StateWords,
    canvas: &Canvas<'_>,
    row: usize,
    progress: &mut ProgressWords,
) -> u32
    ensures { answer result (progress_in progress.new) ≡ progress_call row canvas.now.painting.now (words_in state.now) (progress_in progress.old) }
{
    let Some(screen) = screen_of(state, true) else {
        return before_4(row_progress(screen_at(state), row, canvas.painting));
    };
    put_progress(row_progress(screen, row, canvas.painting), progress)
}

/// 0.3.0, as the file `VERSION` says it.
const VERSION: u32 = 768;

/// The version of the library: 65,536 x the first number + 256 x the second + the third.
#[unsafe(no_mangle)]
pub extern "C" fn coarse_version() -> u32
    ensures { result ≡ VERSION }
{
    VERSION
}
