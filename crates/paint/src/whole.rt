//! A row painted from where it stands: one step, or all of them. `paint_step` and `paint_row` are public calls: they have no `requires`. The
//! others are their parts.
ghost use Rattle.std.specs.Prelude.{◌≡◌, ◌≤◌, ◌-◌, ◌*◌, Ok, MatchOption, true, length};
ghost use Rattle.sizes.specs.Sizes.{piece-size};
ghost use Rattle.sizes.specs.Widths.{bucket-tiles};
ghost use Rattle.rules.specs.Minima.{minima-room};
ghost use Rattle.depth.specs.Minima.{SameDepth};
ghost use Rattle.screen.specs.Depths.{depths_in};
ghost use Rattle.paint.specs.Answers.{painted_of};
ghost use Rattle.paint.specs.Painting.{out, listed};
ghost use Rattle.paint.specs.Judging.{wide};
ghost use Rattle.paint.specs.Stepping.{Within, depth-part, with-depth-part, put-depth, stepped};
ghost use Rattle.paint.specs.Rows.{Sure, run_on};
ghost use Rattle.paint.specs.Named.{SameCanvas, step_out, RowReady, RowStored, IsRowOf, row_lent, row_attrs, used_attrs};
ghost use Rattle.paint.specs.Running.{most, finished_with, row-run, row-run-on, row-painted};

use crate::canvas::judge::judge_step;
use crate::canvas::{Canvas, Stepped, Stored};
use crate::command::{Attributes, StoredRow};
use crate::whole::run::{Went, run_parts, run_sure, step_sure};
use depth::{Depth, minima_room};
use row::part;
use screen::Screen;
use sizes::answers::Refusal;
use sizes::{MOST_ROOM, ROW};

pub mod commands;
pub mod depths;
pub mod looks;
pub mod pieces;
pub mod run;
pub mod scale;

/// No row has more steps: C, D and the one that finds nothing left.
pub const MOST_STEPS: usize = 2 * MOST_ROOM as usize + 1;

// What of the stored words is a row's.
#[inline(always)]
fn row_of<'a>(screen: Screen, row: usize, stored: &Stored<'a>) -> StoredRow<'a>
    requires { RowStored screen row stored.now }
    ensures { IsRowOf screen row stored.now result }
{
    StoredRow {
        state: part(stored.rows, ROW, row),
        render_cmds: part(stored.render_cmds, 4 * screen.c as usize, row),
        depth_cmds: part(stored.depth_cmds, 2 * screen.d as usize, row),
        attrs: Attributes {
            paint_attrs: stored.paint_attrs,
            paints: screen.paint_attrs,
            layer_attrs: stored.layer_attrs,
            layers: screen.layer_attrs,
        },
        width: screen.width,
    }
}

// The sure steps of a row of `b` buckets, at most `limit`, its own painting words being lent.
#[inline(always)]
fn sure_part(
    read: &StoredRow<'_>,
    b: usize,
    row: usize,
    depth: &mut Depth<'_>,
    painting: &mut [u32],
    list: &mut [u32],
    limit: usize,
) -> Went
    requires limit { limit ≤ most }
    requires words { Within b row depth.old.words.now }
    requires minima { Within (minima-room b) row depth.old.minima.now }
    requires painting { length painting.old ≡ 2 }
    ensures same { SameDepth depth.old depth.new }
    ensures long { (length painting.new ≡ 2) × (length list.new ≡ length list.old) }
    ensures others { depths_in depth.new ≡ with-depth-part b row (depths_in depth.old) (depth-part b row (depths_in depth.new)) }
    ensures sure { Sure read.now limit result (depth-part b row (depths_in depth.old)) painting.old list.old
        (depth-part b row (depths_in depth.new)) painting.new list.new }
{
    let over = minima_room(b);
    let u = row * b;
    let m = row * over;
    run_sure(
        read,
        &mut depth.words[u..u + b],
        &mut depth.minima[m..m + over],
        painting,
        list,
        limit,
    )
}

// The next step of such a row, if one look settles it.
#[inline(always)]
fn step_part(
    read: &StoredRow<'_>,
    b: usize,
    row: usize,
    depth: &mut Depth<'_>,
    painting: &mut [u32],
    list: &mut [u32],
) -> Went
    requires words { Within b row depth.old.words.now }
    requires minima { Within (minima-room b) row depth.old.minima.now }
    requires painting { length painting.old ≡ 2 }
    ensures same { SameDepth depth.old depth.new }
    ensures long { (length painting.new ≡ 2) × (length list.new ≡ length list.old) }
    ensures others { depths_in depth.new ≡ with-depth-part b row (depths_in depth.old) (depth-part b row (depths_in depth.new)) }
    ensures sure { Sure read.now 1 result (depth-part b row (depths_in depth.old)) painting.old list.old
        (depth-part b row (depths_in depth.new)) painting.new list.new }
{
    let over = minima_room(b);
    let u = row * b;
    let m = row * over;
    step_sure(
        read,
        &mut depth.words[u..u + b],
        &mut depth.minima[m..m + over],
        painting,
        list,
    )
}

// The rest of at most `limit` steps of such a row.
fn rest_part(
    read: &StoredRow<'_>,
    b: usize,
    row: usize,
    depth: &mut Depth<'_>,
    painting: &mut [u32],
    list: &mut [u32],
    limit: usize,
    went: Went,
) -> Result<Stepped, Refusal>
    requires limit { limit ≤ most }
    requires words { Within b row depth.old.words.now }
    requires minima { Within (minima-room b) row depth.old.minima.now }
    requires painting { length painting.old ≡ 2 }
    requires pieces { piece-size * went.pieces ≤ length list.old }
    requires none { went.steps ≡ 0 → went.pieces ≡ 0 }
    ensures same { SameDepth depth.old depth.new }
    ensures run { out (painted_of result) (depths_in depth.new) painting.new list.new
        ≡ put-depth b row (depths_in depth.old) (run_on read.now limit went.steps went.pieces (depth-part b row (depths_in depth.old)) painting.old list.old) }
{
    let over = minima_room(b);
    let u = row * b;
    let m = row * over;
    run_parts(
        read,
        &mut depth.words[u..u + b],
        &mut depth.minima[m..m + over],
        painting,
        list,
        limit,
        went,
    )
}

/// The rest of at most `limit` steps of such a row, after those that were sure. A part of the calls, and of a host's.
#[inline(never)]
pub fn row_rest(
    screen: Screen,
    b: usize,
    row: usize,
    stored: &Stored<'_>,
    canvas: &mut Canvas<'_>,
    list: &mut [u32],
    limit: usize,
    went: Went,
) -> Result<Stepped, Refusal>
    requires limit { limit ≤ most }
    requires pieces { piece-size * went.pieces ≤ length list.old }
    requires none { went.steps ≡ 0 → went.pieces ≡ 0 }
    requires wide { b ≡ wide screen }
    requires ready { RowReady screen row stored.now canvas.old list.old }
    ensures same { SameCanvas canvas.old canvas.new }
    ensures painted { step_out (painted_of result) canvas.new list.new
        ≡ row-run-on (bucket-tiles screen.width) (limit - went.steps) went.steps went.pieces (used_attrs screen stored.now) (wide screen) screen.c screen.d row
        (row_lent stored.now canvas.old list.old) }
{
    let v = row * 2;
    let read = row_of(screen, row, stored);
    rest_part(
        &read,
        b,
        row,
        &mut canvas.depth,
        &mut canvas.painting[v..v + 2],
        list,
        limit,
        went,
    )
}

/// At most `limit` steps of a row that is there, of `b` buckets, painting having begun, as far as one look settles each: none is left, or `row_rest` does the
/// others. A part of a host's call.
#[inline(always)]
pub fn row_sure(
    screen: Screen,
    b: usize,
    row: usize,
    stored: &Stored<'_>,
    canvas: &mut Canvas<'_>,
    list: &mut [u32],
    limit: usize,
) -> Went
    requires limit { limit ≤ most }
    requires wide { b ≡ wide screen }
    requires ready { RowReady screen row stored.now canvas.old list.old }
    ensures same { SameCanvas canvas.old canvas.new }
    ensures ready { RowReady screen row stored.now canvas.new list.new }
    ensures pieces { piece-size * result.pieces ≤ length list.new }
    ensures none { result.steps ≡ 0 → result.pieces ≡ 0 }
    ensures ended { result.ended ≡ true → step_out (finished_with result.pieces) canvas.new list.new
        ≡ row-run (bucket-tiles screen.width) limit (used_attrs screen stored.now) (wide screen) screen.c screen.d row
        (row_lent stored.now canvas.old list.old) }
    ensures rest { row-run-on (bucket-tiles screen.width) (limit - result.steps) result.steps result.pieces (used_attrs screen stored.now) (wide screen)
        screen.c screen.d row (row_lent stored.now canvas.new list.new)
        ≡ row-run (bucket-tiles screen.width) limit (used_attrs screen stored.now) (wide screen) screen.c screen.d row
        (row_lent stored.now canvas.old list.old) }
{
    let v = row * 2;
    let read = row_of(screen, row, stored);
    sure_part(
        &read,
        b,
        row,
        &mut canvas.depth,
        &mut canvas.painting[v..v + 2],
        list,
        limit,
    )
}

/// At most `limit` steps of a row that is there, of `b` buckets, painting having begun: the row's own parts are handed on. A part of the calls, and of those
/// of a host.
#[inline(always)]
pub fn row_part(
    screen: Screen,
    b: usize,
    row: usize,
    stored: &Stored<'_>,
    canvas: &mut Canvas<'_>,
    list: &mut [u32],
    limit: usize,
) -> Result<Stepped, Refusal>
    requires limit { limit ≤ most }
    requires wide { b ≡ wide screen }
    requires ready { RowReady screen row stored.now canvas.old list.old }
    ensures same { SameCanvas canvas.old canvas.new }
    ensures painted { step_out (painted_of result) canvas.new list.new
        ≡ row-run (bucket-tiles screen.width) limit (used_attrs screen stored.now) (wide screen) screen.c screen.d row
        (row_lent stored.now canvas.old list.old) }
{
    let went = row_sure(screen, b, row, stored, canvas, list, limit);
    if went.ended {
        return Ok(Stepped {
            finished: true,
            pieces: went.pieces,
        });
    }
    row_rest(screen, b, row, stored, canvas, list, limit, went)
}

/// One step of such a row, if one look settles it: else nothing changes. A part of a host's call.
#[inline(always)]
pub fn row_step(
    screen: Screen,
    b: usize,
    row: usize,
    stored: &Stored<'_>,
    canvas: &mut Canvas<'_>,
    list: &mut [u32],
) -> Option<Stepped>
    requires wide { b ≡ wide screen }
    requires ready { RowReady screen row stored.now canvas.old list.old }
    ensures same { SameCanvas canvas.old canvas.new }
    ensures painted { MatchOption result
        (step_out (listed 0) canvas.new list.new ≡ step_out (listed 0) canvas.old list.old)
        (λ s. step_out (painted_of (Ok s)) canvas.new list.new
        ≡ row-run (bucket-tiles screen.width) 1 (used_attrs screen stored.now) (wide screen) screen.c screen.d row (row_lent stored.now canvas.old list.old)) }
{
    let v = row * 2;
    let read = row_of(screen, row, stored);
    let went = step_part(
        &read,
        b,
        row,
        &mut canvas.depth,
        &mut canvas.painting[v..v + 2],
        list,
    );
    if !went.ended && went.steps == 0 {
        return None;
    }
    Some(Stepped {
        finished: went.ended,
        pieces: went.pieces,
    })
}

/// One step of one row: its depth fills last to first, then its render commands in order, then finished, as often as asked. The pieces stand at the list's
/// start. BadViewport, BadArena, BadRecord, BadRun for no such row, Open or NoRoom: refused, every word stays.
pub fn paint_step(
    screen: Screen,
    row: usize,
    stored: &Stored<'_>,
    canvas: &mut Canvas<'_>,
    list: &mut [u32],
) -> Result<Stepped, Refusal>
    ensures same { SameCanvas canvas.old canvas.new }
    ensures step { step_out (painted_of result) canvas.new list.new
        ≡ stepped screen row (row_attrs stored.now) (row_lent stored.now canvas.old list.old) }
{
    judge_step(
        screen,
        row,
        stored,
        canvas.depth.words.len(),
        canvas.depth.minima.len(),
        canvas.painting.len(),
    )?;
    let b = screen.buckets();
    row_part(screen, b, row, stored, canvas, list, 1)
}

/// The row's next steps, one after the other, until one is refused or the row is finished; refused where the first step is. The pieces stand one after the
/// other in the list. finished: no step is left. At most MOST_STEPS, which no row passes.
pub fn paint_row(
    screen: Screen,
    row: usize,
    stored: &Stored<'_>,
    canvas: &mut Canvas<'_>,
    list: &mut [u32],
) -> Result<Stepped, Refusal>
    ensures same { SameCanvas canvas.old canvas.new }
    ensures painted { step_out (painted_of result) canvas.new list.new
        ≡ row-painted screen row (row_attrs stored.now) (row_lent stored.now canvas.old list.old) }
{
    judge_step(
        screen,
        row,
        stored,
        canvas.depth.words.len(),
        canvas.depth.minima.len(),
        canvas.painting.len(),
    )?;
    let b = screen.buckets();
    row_part(screen, b, row, stored, canvas, list, MOST_STEPS)
}
