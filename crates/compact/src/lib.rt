//! Room back in a crowded row: the render commands that nothing will ever show are taken out of it. `compact_row` is a public call; the others are parts of it:
//! where a function asks something, its callers have judged it.
#![tactic(auto)]

ghost use Rattle.std.specs.Prelude.{◌≡◌, length};
ghost use Rattle.sizes.specs.Refusals.{answer_number};
ghost use Rattle.rules.specs.Answers.{answer};
ghost use Rattle.row.specs.Words.{words};
ghost use Rattle.row.specs.Rows.{all-held, SameRows};
ghost use Rattle.paint.specs.Reading.{attrs_of};
ghost use Rattle.paint.specs.Stepping.{attributes};
ghost use Rattle.paint.specs.StoredCmds.{stored-long};
ghost use Rattle.compact.specs.Call.{tables-long, compact_number, stored_in, row-compacted, compacting, RowReady};

use crate::one_row::compact_words;
use paint::canvas::judge::judge_row;
use paint::command::Attributes;
use row::{Rows, place_of};
use screen::Screen;
use sizes::answers::Refusal;
use sizes::{LAYER_TABLE, PAINT_TABLE, ROW};

pub mod commands;
pub mod hidden;
pub mod newest;
pub mod one_row;

// The rows' arenas are lent exactly.
fn is_arenas(screen: Screen, rows: &Rows<'_>) -> bool
    ensures { result ≡ stored-long screen (length rows.now.render_cmds.now) (length rows.now.depth_cmds.now) }
{
    let n = screen.rows();
    rows.render_cmds.len() == n * (4 * screen.c as usize)
        && rows.depth_cmds.len() == n * (2 * screen.d as usize)
}

// The tables are.
fn is_tables(screen: Screen, rows: &Rows<'_>, paint_attrs: &[u32], layer_attrs: &[u32]) -> bool
    ensures { result ≡ tables-long screen (length rows.now.state.now) (length paint_attrs.now) (length layer_attrs.now) }
{
    rows.state.len() == screen.rows() * ROW
        && paint_attrs.len() == PAINT_TABLE
        && layer_attrs.len() == LAYER_TABLE
}

/// Before anything of the row is read: 2, 1, 4, 12 for no such row, then 13 with a layer open.
#[tactic(auto, unfolding(crate::specs::Call::compact_number))]
pub fn judge(
    screen: Screen,
    rows: &Rows<'_>,
    paint_attrs: &[u32],
    layer_attrs: &[u32],
    row: usize,
) -> Result<(), Refusal>
    ensures { answer_number result ≡ compact_number screen row (all-held rows.now) (attributes paint_attrs.now layer_attrs.now) }
{
    let arenas = is_arenas(screen, rows);
    let tables = is_tables(screen, rows, paint_attrs, layer_attrs);
    judge_row(screen, row, arenas, tables)?;
    if screen.layers != 0 {
        return Err(Refusal::Open);
    }
    Ok(())
}

// A row that is there, compacted in its place.
fn compact_part(
    screen: Screen,
    state: &mut [u32],
    render_cmds: &mut [u32],
    depth_cmds: &mut [u32],
    attrs: &Attributes<'_>,
    row: usize,
) -> Result<(), Refusal>
    requires { RowReady screen row (words state.old render_cmds.old depth_cmds.old) }
    ensures long { (length state.new ≡ length state.old) × (length render_cmds.new ≡ length render_cmds.old) × (length depth_cmds.new ≡ length depth_cmds.old) }
    ensures part { answer (answer_number result) (words state.new render_cmds.new depth_cmds.new)
        ≡ row-compacted screen row (attrs_of attrs.now) (words state.old render_cmds.old depth_cmds.old) }
{
    let p = place_of(screen.c, screen.d, row);
    compact_words(
        &mut state[p.x0..p.x1],
        &mut render_cmds[p.y0..p.y1],
        &depth_cmds[p.z0..p.z1],
        attrs,
        screen.buckets(),
        screen.width,
    )
}

/// The row without the commands that nothing will ever show: fills of which no tile is visible, and PushBufs directly followed by a PopBuf, again and again
/// until there is neither. What is left closes up in its order, the slots behind it are 0, and the record has the new count; painting is ended. BadViewport,
/// BadArena, BadRecord, BadRun for no such row, Open with a layer open, BadRecord for what is read of the row: refused, the screen and every word stay.
pub fn compact_row<'a>(
    screen: &mut Screen,
    rows: &mut Rows<'_>,
    paint_attrs: &'a [u32],
    layer_attrs: &'a [u32],
    row: usize,
) -> Result<(), Refusal>
    ensures same { SameRows rows.old rows.new }
    ensures compacted { answer (answer_number result) (stored_in screen.new rows.new)
        ≡ compacting row (attributes paint_attrs.now layer_attrs.now) (stored_in screen.old rows.old) }
{
    judge(*screen, rows, paint_attrs, layer_attrs, row)?;
    let attrs = Attributes {
        paint_attrs,
        paints: screen.paint_attrs,
        layer_attrs,
        layers: screen.layer_attrs,
    };
    compact_part(
        *screen,
        rows.state,
        rows.render_cmds,
        rows.depth_cmds,
        &attrs,
        row,
    )?;
    screen.painting = false;
    Ok(())
}
