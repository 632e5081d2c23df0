//! The calls of painting, of a row's runs, of `is_hidden`, of `can_skip` and of the split.
ghost use Rattle.std.specs.Prelude.{◌≡◌};
ghost use Rattle.host.specs.Held.{one, parts_in};
ghost use Rattle.theorem_once.specs.Border.{begin-words, paint-words, paint-left, rows-words, rows-left, runs-words, runs-left, write-words, spans-words, spans-left, hidden-words, skip-words};

use crate::Twice;
use host::painting::{
    coarse_begin_painting, coarse_can_skip, coarse_is_hidden, coarse_paint_own_row,
    coarse_paint_row, coarse_paint_step, coarse_split_opaque_span, coarse_unset_runs,
    coarse_unset_runs_and_write, coarse_visible_runs,
};
use host::results::{PaintedWords, SplitWords};
use host::rows::{PaintedRows, coarse_paint_rows};
use host::spans::coarse_visible_spans;
use host::state::StateWords;
use paint::{Canvas, Stored};
use span::TileSpan;

/// Two calls of `coarse_begin_painting`.
pub fn begin_twice(
    a_state: &mut StateWords,
    a_canvas: &mut Canvas<'_>,
    b_state: &mut StateWords,
    b_canvas: &mut Canvas<'_>,
) -> Twice<u32>
    ensures { begin-words a_state.old a_canvas.old ≡ begin-words b_state.old b_canvas.old
        → (result.0 ≡ result.1) × (begin-words a_state.new a_canvas.new ≡ begin-words b_state.new b_canvas.new) }
{
    (
        coarse_begin_painting(a_state, a_canvas),
        coarse_begin_painting(b_state, b_canvas),
    )
}

/// What painting reads and writes.
#[derive(Drop)]
pub struct PaintHost<'a> {
    pub state: StateWords,
    pub stored: Stored<'a>,
    pub canvas: Canvas<'a>,
    pub list: &'a mut [u32],
    pub painted: PaintedWords,
}

/// Two calls of `coarse_paint_step`.
pub fn step_twice(a: &mut PaintHost<'_>, b: &mut PaintHost<'_>, row: usize) -> Twice<u32>
    ensures { paint-words a.old ≡ paint-words b.old
        → (result.0 ≡ result.1) × (paint-left a.new ≡ paint-left b.new) }
{
    (
        coarse_paint_step(
            &a.state,
            &a.stored,
            &mut a.canvas,
            row,
            a.list,
            &mut a.painted,
        ),
        coarse_paint_step(
            &b.state,
            &b.stored,
            &mut b.canvas,
            row,
            b.list,
            &mut b.painted,
        ),
    )
}

/// Two calls of `coarse_paint_row`.
pub fn row_twice(a: &mut PaintHost<'_>, b: &mut PaintHost<'_>, row: usize) -> Twice<u32>
    ensures { paint-words a.old ≡ paint-words b.old
        → (result.0 ≡ result.1) × (paint-left a.new ≡ paint-left b.new) }
{
    (
        coarse_paint_row(
            &a.state,
            &a.stored,
            &mut a.canvas,
            row,
            a.list,
            &mut a.painted,
        ),
        coarse_paint_row(
            &b.state,
            &b.stored,
            &mut b.canvas,
            row,
            b.list,
            &mut b.painted,
        ),
    )
}

/// Two calls of `coarse_paint_own_row`.
pub fn own_row_twice(a: &mut PaintHost<'_>, b: &mut PaintHost<'_>) -> Twice<u32>
    ensures { paint-words a.old ≡ paint-words b.old
        → (result.0 ≡ result.1) × (paint-left a.new ≡ paint-left b.new) }
{
    (
        coarse_paint_own_row(&a.state, &a.stored, &mut a.canvas, a.list, &mut a.painted),
        coarse_paint_own_row(&b.state, &b.stored, &mut b.canvas, b.list, &mut b.painted),
    )
}

/// What painting rows by one call reads and writes.
#[derive(Drop)]
pub struct RowsHost<'a> {
    pub state: StateWords,
    pub stored: Stored<'a>,
    pub canvas: Canvas<'a>,
    pub list: &'a mut [u32],
    pub ends: &'a mut [usize],
    pub painted: PaintedRows,
}

/// Two calls of `coarse_paint_rows`.
pub fn rows_twice(
    a: &mut RowsHost<'_>,
    b: &mut RowsHost<'_>,
    first: usize,
    end: usize,
) -> Twice<u32>
    ensures { rows-words a.old ≡ rows-words b.old
        → (result.0 ≡ result.1) × (rows-left a.new ≡ rows-left b.new) }
{
    (
        coarse_paint_rows(
            &a.state,
            &a.stored,
            &mut a.canvas,
            first,
            end,
            a.list,
            a.ends,
            &mut a.painted,
        ),
        coarse_paint_rows(
            &b.state,
            &b.stored,
            &mut b.canvas,
            first,
            end,
            b.list,
            b.ends,
            &mut b.painted,
        ),
    )
}

/// What the runs of a row are found in, and where they are listed.
#[derive(Drop)]
pub struct RunsHost<'a> {
    pub state: StateWords,
    pub canvas: Canvas<'a>,
    pub list: &'a mut [u32],
    pub count: usize,
}

/// Two calls of `coarse_unset_runs`.
pub fn unset_twice(
    a: &mut RunsHost<'_>,
    b: &mut RunsHost<'_>,
    row: usize,
    tiles: TileSpan,
) -> Twice<u32>
    ensures { runs-words a.old ≡ runs-words b.old
        → (result.0 ≡ result.1) × (runs-left a.new ≡ runs-left b.new) }
{
    (
        coarse_unset_runs(&a.state, &a.canvas, row, tiles, a.list, &mut a.count),
        coarse_unset_runs(&b.state, &b.canvas, row, tiles, b.list, &mut b.count),
    )
}

/// Two calls of `coarse_visible_runs`.
pub fn visible_twice(
    a: &mut RunsHost<'_>,
    b: &mut RunsHost<'_>,
    row: usize,
    tiles: TileSpan,
    id: u32,
) -> Twice<u32>
    ensures { runs-words a.old ≡ runs-words b.old
        → (result.0 ≡ result.1) × (runs-left a.new ≡ runs-left b.new) }
{
    (
        coarse_visible_runs(&a.state, &a.canvas, row, tiles, id, a.list, &mut a.count),
        coarse_visible_runs(&b.state, &b.canvas, row, tiles, id, b.list, &mut b.count),
    )
}

/// The same for spans.
#[derive(Drop)]
pub struct SpansHost<'a> {
    pub state: StateWords,
    pub canvas: Canvas<'a>,
    pub list: &'a mut [TileSpan],
    pub count: usize,
}

/// Two calls of `coarse_visible_spans`.
pub fn spans_twice(
    a: &mut SpansHost<'_>,
    b: &mut SpansHost<'_>,
    row: usize,
    tiles: TileSpan,
    id: u32,
) -> Twice<u32>
    ensures { spans-words a.old ≡ spans-words b.old
        → (result.0 ≡ result.1) × (spans-left a.new ≡ spans-left b.new) }
{
    (
        coarse_visible_spans(&a.state, &a.canvas, row, tiles, id, a.list, &mut a.count),
        coarse_visible_spans(&b.state, &b.canvas, row, tiles, id, b.list, &mut b.count),
    )
}

/// Two calls of `coarse_unset_runs_and_write`.
pub fn write_twice(
    a: &mut RunsHost<'_>,
    b: &mut RunsHost<'_>,
    row: usize,
    buckets: TileSpan,
    id: u32,
) -> Twice<u32>
    ensures { write-words a.old ≡ write-words b.old
        → (result.0 ≡ result.1) × (write-words a.new ≡ write-words b.new) }
{
    (
        coarse_unset_runs_and_write(
            &mut a.state,
            &mut a.canvas,
            row,
            buckets,
            id,
            a.list,
            &mut a.count,
        ),
        coarse_unset_runs_and_write(
            &mut b.state,
            &mut b.canvas,
            row,
            buckets,
            id,
            b.list,
            &mut b.count,
        ),
    )
}

/// What `is_hidden` reads and writes.
#[derive(Drop)]
pub struct HiddenHost<'a> {
    pub state: StateWords,
    pub minima: &'a [u32],
    pub yes: u32,
}

/// Two calls of `coarse_is_hidden`.
pub fn hidden_twice(
    a: &mut HiddenHost<'_>,
    b: &mut HiddenHost<'_>,
    row: usize,
    buckets: TileSpan,
    id: u32,
) -> Twice<u32>
    ensures { hidden-words a.old ≡ hidden-words b.old
        → (result.0 ≡ result.1) × (one a.new.yes ≡ one b.new.yes) }
{
    (
        coarse_is_hidden(&a.state, a.minima, row, buckets, id, &mut a.yes),
        coarse_is_hidden(&b.state, b.minima, row, buckets, id, &mut b.yes),
    )
}

/// What `can_skip` reads and writes.
#[derive(Drop)]
pub struct SkipHost<'a> {
    pub state: StateWords,
    pub stored: Stored<'a>,
    pub yes: u32,
}

/// Two calls of `coarse_can_skip`. Of what is stored, the rows' records alone decide.
pub fn skip_twice(
    a: &mut SkipHost<'_>,
    b: &mut SkipHost<'_>,
    row: usize,
    tiles: TileSpan,
    id: u32,
) -> Twice<u32>
    ensures { skip-words a.old ≡ skip-words b.old
        → (result.0 ≡ result.1) × (one a.new.yes ≡ one b.new.yes) }
{
    (
        coarse_can_skip(&a.state, &a.stored, row, tiles, id, &mut a.yes),
        coarse_can_skip(&b.state, &b.stored, row, tiles, id, &mut b.yes),
    )
}

/// Two calls of `coarse_split_opaque_span`.
pub fn split_twice(
    a_parts: &mut SplitWords,
    b_parts: &mut SplitWords,
    tiles: TileSpan,
    pixels: u32,
) -> Twice<u32>
    ensures { parts_in a_parts.old ≡ parts_in b_parts.old
        → (result.0 ≡ result.1) × (parts_in a_parts.new ≡ parts_in b_parts.new) }
{
    (
        coarse_split_opaque_span(tiles, pixels, a_parts),
        coarse_split_opaque_span(tiles, pixels, b_parts),
    )
}
