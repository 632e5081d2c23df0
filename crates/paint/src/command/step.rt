//! One step of one row: judged first, then done.
ghost use Rattle.std.specs.Prelude.{◌≡◌, [], ◌+◌, ◌*◌, ◌≤◌, length};
ghost use Rattle.cmd.specs.Commands.{command};
ghost use Rattle.cmd.specs.Good.{GoodCommand};
ghost use Rattle.paint.specs.Answers.{painted_of};
ghost use Rattle.paint.specs.Painting.{words_lent, bad-row};
ghost use Rattle.screen.specs.Depths.{depths};
ghost use Rattle.paint.specs.Named.{CanStep, RowLong, SameRow, row_out, own-depths};
ghost use Rattle.paint.specs.Rows.{steps_of, depth_step_of, command_step_of};

use crate::canvas::stored::RowWords;
use crate::command::fills::{paint_depth, paint_fill};
use crate::command::reading::StoredRow;
use crate::pieces::{Stepped, advance};
use cmd::command::{CmdWords, RenderCmd};
use cmd::depth_fill::DepthWords;
use row::judge::is_good_summary;
use sizes::answers::Refusal;
use sizes::{DEPTHS, MOST_LAYERS, RENDERS};

// Whether the words are no row's: counts above the room, a nesting above 16, more steps than there are, a summary out of bounds (answer 4).
fn is_forged(row: &StoredRow<'_>, canvas: &RowWords<'_>) -> bool
    requires { length canvas.now.painting.now ≡ 2 }
    ensures { result ≡ bad-row (words_lent row.now.state.now row.now.render_cmds.now row.now.depth_cmds.now (depths [] []) canvas.now.painting.now []) }
{
    let renders = row.state[RENDERS];
    let depths = row.state[DEPTHS];
    row.render_cmds.len() < 4 * renders as usize
        || row.depth_cmds.len() < 2 * depths as usize
        || MOST_LAYERS < canvas.painting[1]
        || depths + renders < canvas.painting[0]
        || !is_good_summary(row.state)
}

// The depth fill at place k, painted: 4 for its words or its attribute, 14.
fn step_depth(
    row: &StoredRow<'_>,
    k: usize,
    canvas: &mut RowWords<'_>,
    list: &mut [u32],
) -> Result<Stepped, Refusal>
    requires k_in_bounds { 2 * k + 2 ≤ length row.now.depth_cmds.now }
    requires lens { RowLong canvas.old }
    requires painting { CanStep canvas.old.painting.now }
    ensures same { SameRow canvas.old canvas.new }
    ensures step { row_out (painted_of result) canvas.new list.new ≡ depth_step_of row.now k (own-depths canvas.old) canvas.old.painting.now list.old }
{
    let words = DepthWords::at(row.depth_cmds, k);
    let fill = words
        .read(canvas.depth.len() as u32)
        .ok_or(Refusal::BadRecord)?;
    let mark = row.attrs.paint(fill.attrs_idx).ok_or(Refusal::BadRecord)?;
    paint_depth(canvas, fill, mark, list, row.width)
}

// A command that words stand for, painted: 4 for its attribute, or for a nesting that would leave 0 to 16; 14.
#[tactic(auto, using(crate::proofs::Steps::paint_taken, crate::proofs::Steps::layer_taken, crate::proofs::Steps::push_forged, crate::proofs::Steps::pop_forged))]
fn step_command(
    row: &StoredRow<'_>,
    cmd: RenderCmd,
    canvas: &mut RowWords<'_>,
    list: &mut [u32],
) -> Result<Stepped, Refusal>
    requires good { GoodCommand (command cmd) }
    requires lens { RowLong canvas.old }
    requires painting { CanStep canvas.old.painting.now }
    ensures same { SameRow canvas.old canvas.new }
    ensures step { row_out (painted_of result) canvas.new list.new
        ≡ command_step_of row.now (command cmd) (own-depths canvas.old) canvas.old.painting.now list.old }
{
    match cmd {
        RenderCmd::PaintFill(fill) => {
            let mark = row.attrs.paint(fill.attrs_idx).ok_or(Refusal::BadRecord)?;
            paint_fill(row, canvas, false, fill, mark, list)
        }
        RenderCmd::LayerFill(fill) => {
            let mark = row.attrs.layer(fill.attrs_idx).ok_or(Refusal::BadRecord)?;
            paint_fill(row, canvas, true, fill, mark, list)
        }
        RenderCmd::PushBuf(_) => {
            let nesting = canvas.painting[1];
            if MOST_LAYERS <= nesting {
                return Err(Refusal::BadRecord);
            }
            Ok(advance(canvas.painting, nesting + 1, 0))
        }
        RenderCmd::PopBuf => {
            let nesting = canvas.painting[1];
            if nesting == 0 {
                return Err(Refusal::BadRecord);
            }
            Ok(advance(canvas.painting, nesting - 1, 0))
        }
    }
}

/// One step of a row: its depth fills last to first, then its commands in order, then finished, as often as asked. The canvas has the row's own words.
/// BadRecord, 4, for words that are no row's; NoRoom, 14.
pub fn step_row(
    row: &StoredRow<'_>,
    canvas: &mut RowWords<'_>,
    list: &mut [u32],
) -> Result<Stepped, Refusal>
    requires lens { RowLong canvas.old }
    ensures same { SameRow canvas.old canvas.new }
    ensures step { row_out (painted_of result) canvas.new list.new ≡ steps_of row.now (own-depths canvas.old) canvas.old.painting.now list.old }
{
    if is_forged(row, canvas) {
        return Err(Refusal::BadRecord);
    }
    let renders = row.state[RENDERS];
    let depths = row.state[DEPTHS];
    let steps = canvas.painting[0];
    if steps < depths {
        let k = depths - (steps + 1);
        return step_depth(row, k as usize, canvas, list);
    }
    let k = steps - depths;
    if k < renders {
        let words = CmdWords::at(row.render_cmds, k as usize);
        let cmd = words.read().ok_or(Refusal::BadRecord)?;
        return step_command(row, cmd, canvas, list);
    }
    Ok(Stepped {
        finished: true,
        pieces: 0,
    })
}
