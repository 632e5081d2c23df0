//! What a call's screen, its lengths and its row say, before anything of the row is read.
ghost use Rattle.std.specs.Prelude.{◌≡◌, true, cond, length};
ghost use Rattle.sizes.specs.Refusals.{answer_number};
ghost use Rattle.rules.specs.Answers.{Done, Open};
ghost use Rattle.paint.specs.Judging.{depth-long, minima-long, depths-long, arenas-long, tables-long, judged, of_row, begin_number, paints-on, step_number, runs_number, write_number, hidden_number, skip_number};
ghost use Rattle.paint.specs.InOrder.{rows_number};
ghost use Rattle.paint.specs.OwnRow.{own-arenas-long, own-tables-long, own_number};
ghost use Rattle.paint.specs.StoredCmds.{stored_words, stored_number, progress_number};

use crate::canvas::stored::Stored;
use crate::rows::RowRange;
use depth::minima_room;
use screen::{Screen, is_good_room};
use sizes::answers::Refusal;
use sizes::{LAYER_TABLE, PAINT_TABLE, ROW};

// The arena of depth words is lent exactly.
fn is_depth(screen: Screen, depth: usize) -> bool
    ensures { result ≡ depth-long screen depth }
{
    depth == screen.rows() * screen.buckets()
}

// The arena of minima is.
fn is_minima(screen: Screen, minima: usize) -> bool
    ensures { result ≡ minima-long screen minima }
{
    minima == screen.rows() * minima_room(screen.buckets())
}

// Both are.
fn is_depths(screen: Screen, depth: usize, minima: usize) -> bool
    ensures { result ≡ depths-long screen depth minima }
{
    is_depth(screen, depth) && is_minima(screen, minima)
}

// All four arenas are.
fn is_arenas(screen: Screen, stored: &Stored<'_>, depth: usize, minima: usize) -> bool
    ensures { result ≡ arenas-long screen (length stored.now.render_cmds.now) (length stored.now.depth_cmds.now) depth minima }
{
    let n = screen.rows();
    stored.render_cmds.len() == n * (4 * screen.c as usize)
        && stored.depth_cmds.len() == n * (2 * screen.d as usize)
        && is_depths(screen, depth, minima)
}

// The tables that a step reads are.
fn is_tables(screen: Screen, stored: &Stored<'_>, painting: usize) -> bool
    ensures { result ≡ tables-long screen (length stored.now.rows.now) painting (length stored.now.paint_attrs.now) (length stored.now.layer_attrs.now) }
{
    let n = screen.rows();
    stored.rows.len() == n * ROW
        && painting == n * 2
        && stored.paint_attrs.len() == PAINT_TABLE
        && stored.layer_attrs.len() == LAYER_TABLE
}

// 2, then 1, then 4: the screen's numbers, and whether the arenas and tables that are lent have their lengths.
#[tactic(auto, unfolding(crate::specs::Judging::judged))]
#[inline(always)]
fn judge(screen: Screen, arenas: bool, tables: bool) -> Result<(), Refusal>
    ensures { answer_number result ≡ judged screen arenas tables }
{
    if !screen.viewport.is_good_viewport() {
        return Err(Refusal::BadViewport);
    }
    if !is_good_room(screen.c) || !is_good_room(screen.d) || !arenas {
        return Err(Refusal::BadArena);
    }
    if !tables || !screen.is_good() {
        return Err(Refusal::BadRecord);
    }
    Ok(())
}

/// The same, then 12 where there is no such row.
#[inline(always)]
pub fn judge_row(screen: Screen, row: usize, arenas: bool, tables: bool) -> Result<(), Refusal>
    ensures { answer_number result ≡ of_row (judged screen arenas tables) screen row }
{
    judge(screen, arenas, tables)?;
    if screen.rows() <= row {
        return Err(Refusal::BadRun);
    }
    Ok(())
}

/// Before painting is begun: 2, 1, 4, then 13 with a layer open.
#[tactic(auto, unfolding(crate::specs::Judging::begin_number))]
pub fn judge_begin(
    screen: Screen,
    depth: usize,
    minima: usize,
    painting: usize,
) -> Result<(), Refusal>
    ensures { answer_number result ≡ begin_number screen depth minima painting }
{
    judge(
        screen,
        is_depths(screen, depth, minima),
        painting == screen.rows() * 2,
    )?;
    if screen.layers != 0 {
        return Err(Refusal::Open);
    }
    Ok(())
}

// 13 with a layer open or where painting has not begun.
#[inline(always)]
fn judge_begun(screen: Screen) -> Result<(), Refusal>
    ensures { answer_number result ≡ cond (paints-on screen) Done Open }
{
    if 0 < screen.layers || !screen.painting {
        return Err(Refusal::Open);
    }
    Ok(())
}

/// Before a step of a row: 2, 1, 4, 12 for no such row, then 13 with a layer open or where painting has not begun.
#[tactic(auto, unfolding(crate::specs::Judging::step_number))]
#[inline(always)]
pub fn judge_step(
    screen: Screen,
    row: usize,
    stored: &Stored<'_>,
    depth: usize,
    minima: usize,
    painting: usize,
) -> Result<(), Refusal>
    ensures { answer_number result ≡ step_number screen row
        (arenas-long screen (length stored.now.render_cmds.now) (length stored.now.depth_cmds.now) depth minima)
        (tables-long screen (length stored.now.rows.now) painting (length stored.now.paint_attrs.now) (length stored.now.layer_attrs.now)) }
{
    let arenas = is_arenas(screen, stored, depth, minima);
    let tables = is_tables(screen, stored, painting);
    judge_row(screen, row, arenas, tables)?;
    judge_begun(screen)
}

// One row's commands and depth fills, depth words and minima are lent exactly.
fn is_own_arenas(screen: Screen, stored: &Stored<'_>, depth: usize, minima: usize) -> bool
    ensures { result ≡ own-arenas-long screen (length stored.now.render_cmds.now) (length stored.now.depth_cmds.now) depth minima }
{
    let b = screen.buckets();
    stored.render_cmds.len() == 4 * screen.c as usize
        && stored.depth_cmds.len() == 2 * screen.d as usize
        && (depth == b && minima == minima_room(b))
}

// Its record, its painting words and the tables are.
fn is_own_tables(stored: &Stored<'_>, painting: usize) -> bool
    ensures { result ≡ own-tables-long (length stored.now.rows.now) painting (length stored.now.paint_attrs.now) (length stored.now.layer_attrs.now) }
{
    stored.rows.len() == ROW
        && painting == 2
        && stored.paint_attrs.len() == PAINT_TABLE
        && stored.layer_attrs.len() == LAYER_TABLE
}

/// Before a row is painted on its own words: 2, 1, 4, then 13 as before a step.
#[tactic(auto, unfolding(crate::specs::OwnRow::own_number))]
pub fn judge_own(
    screen: Screen,
    stored: &Stored<'_>,
    depth: usize,
    minima: usize,
    painting: usize,
) -> Result<(), Refusal>
    ensures { answer_number result ≡ own_number screen
        (own-arenas-long screen (length stored.now.render_cmds.now) (length stored.now.depth_cmds.now) depth minima)
        (own-tables-long (length stored.now.rows.now) painting (length stored.now.paint_attrs.now) (length stored.now.layer_attrs.now)) }
{
    let arenas = is_own_arenas(screen, stored, depth, minima);
    let tables = is_own_tables(stored, painting);
    judge(screen, arenas, tables)?;
    judge_begun(screen)
}

/// Before rows are painted one after the other: 2, 1, 4, 12 for no range of the rows, 13 as before a step, then 14 for fewer ends than rows.
#[tactic(auto, unfolding(crate::specs::InOrder::rows_number))]
pub fn judge_rows(
    screen: Screen,
    rows: RowRange,
    stored: &Stored<'_>,
    depth: usize,
    minima: usize,
    painting: usize,
    ends: usize,
) -> Result<(), Refusal>
    ensures { answer_number result ≡ rows_number screen rows
        (arenas-long screen (length stored.now.render_cmds.now) (length stored.now.depth_cmds.now) depth minima)
        (tables-long screen (length stored.now.rows.now) painting (length stored.now.paint_attrs.now) (length stored.now.layer_attrs.now)) ends }
{
    let arenas = is_arenas(screen, stored, depth, minima);
    let tables = is_tables(screen, stored, painting);
    judge(screen, arenas, tables)?;
    if rows.end < rows.first || screen.rows() < rows.end {
        return Err(Refusal::BadRun);
    }
    judge_begun(screen)?;
    if ends < rows.asked() {
        return Err(Refusal::NoRoom);
    }
    Ok(())
}

/// Before a call that is lent the depth words: 2, 1, 4, 12 for no such row.
#[tactic(auto, unfolding(crate::specs::Judging::runs_number))]
pub fn judge_runs(screen: Screen, row: usize, depth: usize) -> Result<(), Refusal>
    ensures { answer_number result ≡ runs_number screen row depth }
{
    judge_row(screen, row, is_depth(screen, depth), true)
}

/// Before one that is lent the depth words and their minima: the same.
#[tactic(auto, unfolding(crate::specs::Judging::write_number))]
pub fn judge_write(screen: Screen, row: usize, depth: usize, minima: usize) -> Result<(), Refusal>
    ensures { answer_number result ≡ write_number screen row depth minima }
{
    judge_row(screen, row, is_depths(screen, depth, minima), true)
}

/// Before one that is lent the minima alone: the same.
#[tactic(auto, unfolding(crate::specs::Judging::hidden_number))]
pub fn judge_hidden(screen: Screen, row: usize, minima: usize) -> Result<(), Refusal>
    ensures { answer_number result ≡ hidden_number screen row minima }
{
    judge_row(screen, row, is_minima(screen, minima), true)
}

/// Before one that is lent the rows' records: the same.
#[tactic(auto, unfolding(crate::specs::Judging::skip_number))]
pub fn judge_skip(screen: Screen, row: usize, rows: usize) -> Result<(), Refusal>
    ensures { answer_number result ≡ skip_number screen row rows }
{
    judge_row(screen, row, true, rows == screen.rows() * ROW)
}

/// Before a row's stored commands are read: 2, 1, 4, 12 for no such row.
#[tactic(auto, unfolding(crate::specs::StoredCmds::stored_number))]
pub fn judge_stored(screen: Screen, row: usize, stored: &Stored<'_>) -> Result<(), Refusal>
    ensures { answer_number result ≡ stored_number screen row (stored_words stored.now) }
{
    let n = screen.rows();
    let arenas = stored.render_cmds.len() == n * (4 * screen.c as usize)
        && stored.depth_cmds.len() == n * (2 * screen.d as usize);
    judge_row(screen, row, arenas, stored.rows.len() == n * ROW)
}

/// Before the painting table is read: the same.
#[tactic(auto, unfolding(crate::specs::StoredCmds::progress_number))]
pub fn judge_painting(screen: Screen, row: usize, painting: usize) -> Result<(), Refusal>
    ensures { answer_number result ≡ progress_number screen row painting }
{
    judge_row(screen, row, true, painting == screen.rows() * 2)
}
