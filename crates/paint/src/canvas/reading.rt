//! What is read of a row without painting it: how many render commands and depth fills are stored, each by its number, and how far the row is painted. All are
//! public calls: they have no `requires`, and write nothing.
ghost use Rattle.std.specs.Prelude.{◌≡◌, ◌&&◌, leb};
ghost use Rattle.paint.specs.StoredCmds.{stored_words, lengths-of-row, command-of-row, depth-of-row, progress-of-row, lengths_of, command_read, depth_read, progress_of};

use crate::canvas::judge::{judge_painting, judge_stored};
use crate::canvas::stored::Stored;
use cmd::command::{CmdWords, RenderCmd};
use cmd::depth_fill::{DepthFill, DepthWords};
use row::part;
use screen::Screen;
use sizes::answers::Refusal;
use sizes::{DEPTHS, RENDERS, ROW};

/// How many render commands and depth fills a row has (bucketer.rs, RowState).
#[derive(Clone, Copy, Debug, PartialEq, Eq)]
pub struct RowLengths {
    pub render_cmds: u32,
    pub depth_cmds: u32,
}

/// How far a row is painted: steps done since painting began, and how many buffers are open after them.
#[derive(Clone, Copy, Debug, PartialEq, Eq)]
pub struct Progress {
    pub steps: u32,
    pub nesting: u32,
}

// No more than a row of the screen has room for.
fn has_room(screen: Screen, lengths: RowLengths) -> bool
    ensures { result ≡ (leb lengths.render_cmds screen.c && leb lengths.depth_cmds screen.d) }
{
    lengths.render_cmds <= screen.c && lengths.depth_cmds <= screen.d
}

/// How many commands and depth fills a row has. BadViewport, BadArena, BadRecord, BadRun for no such row.
pub fn row_lengths(screen: Screen, row: usize, stored: &Stored<'_>) -> Result<RowLengths, Refusal>
    ensures { lengths_of result ≡ lengths-of-row screen row (stored_words stored.now) }
{
    judge_stored(screen, row, stored)?;
    let state = part(stored.rows, ROW, row);
    let lengths = RowLengths {
        render_cmds: state[RENDERS],
        depth_cmds: state[DEPTHS],
    };
    if !has_room(screen, lengths) {
        return Err(Refusal::BadRecord);
    }
    Ok(lengths)
}

/// A row's render command of that number, from 0 on, in the order in which they are painted. BadViewport, BadArena, BadRecord, also where the words are no
/// command; BadRun for no such row or no such command.
pub fn render_cmd(
    screen: Screen,
    row: usize,
    stored: &Stored<'_>,
    number: usize,
) -> Result<RenderCmd, Refusal>
    ensures { command_read result ≡ command-of-row screen row (stored_words stored.now) number }
{
    let lengths = row_lengths(screen, row, stored)?;
    if lengths.render_cmds as usize <= number {
        return Err(Refusal::BadRun);
    }
    let cmds = part(stored.render_cmds, 4 * screen.c as usize, row);
    CmdWords::at(cmds, number).read().ok_or(Refusal::BadRecord)
}

/// A row's depth fill of that number, from 0 on; they are painted from the last to the first, before the commands. Refused as a command is.
pub fn depth_cmd(
    screen: Screen,
    row: usize,
    stored: &Stored<'_>,
    number: usize,
) -> Result<DepthFill, Refusal>
    ensures { depth_read result ≡ depth-of-row screen row (stored_words stored.now) number }
{
    let lengths = row_lengths(screen, row, stored)?;
    if lengths.depth_cmds as usize <= number {
        return Err(Refusal::BadRun);
    }
    let cmds = part(stored.depth_cmds, 2 * screen.d as usize, row);
    DepthWords::at(cmds, number)
        .read(screen.buckets() as u32)
        .ok_or(Refusal::BadRecord)
}

/// How far a row is painted, by the painting table. BadViewport, BadArena for no room in a row, BadRecord, BadRun for no such row.
pub fn row_progress(screen: Screen, row: usize, painting: &[u32]) -> Result<Progress, Refusal>
    ensures { progress_of result ≡ progress-of-row screen row painting.now }
{
    judge_painting(screen, row, painting.len())?;
    let words = part(painting, 2, row);
    Ok(Progress {
        steps: words[0],
        nesting: words[1],
    })
}
