//! Each painting call, and the direct runs.
ghost use Rattle.std.specs.Prelude.{◌≡◌};
ghost use Rattle.theorem_once.specs.Painting.{begin-words, paint-words, write-words};

use crate::Twice;
use depth::Depth;
use paint::rows::Stopped;
use paint::{
    Canvas, RowRange, Stepped, Stored, begin_painting, can_skip, is_hidden, paint_own_row,
    paint_row, paint_rows, paint_step, unset_runs, unset_runs_and_write, visible_runs,
};
use screen::Screen;
use sizes::answers::Refusal;
use span::{BucketRange, TileSpan};

/// What beginning to paint reads and writes.
#[derive(Drop)]
pub struct BeginLent<'a> {
    pub screen: Screen,
    pub canvas: Canvas<'a>,
}

/// Two calls of `begin_painting`.
pub fn begin_twice(a: &mut BeginLent<'_>, b: &mut BeginLent<'_>) -> Twice<Result<(), Refusal>>
    ensures { begin-words a.old ≡ begin-words b.old
        → (result.0 ≡ result.1) × (begin-words a.new ≡ begin-words b.new) }
{
    (
        begin_painting(&mut a.screen, &mut a.canvas),
        begin_painting(&mut b.screen, &mut b.canvas),
    )
}

/// What a step of a row, or all of them, reads and writes.
#[derive(Drop)]
pub struct PaintLent<'a> {
    pub stored: Stored<'a>,
    pub canvas: Canvas<'a>,
    pub list: &'a mut [u32],
}

/// Two calls of `paint_step`.
pub fn step_twice(
    a: &mut PaintLent<'_>,
    b: &mut PaintLent<'_>,
    screen: Screen,
    row: usize,
) -> Twice<Result<Stepped, Refusal>>
    ensures { paint-words a.old ≡ paint-words b.old
        → (result.0 ≡ result.1) × (paint-words a.new ≡ paint-words b.new) }
{
    (
        paint_step(screen, row, &a.stored, &mut a.canvas, a.list),
        paint_step(screen, row, &b.stored, &mut b.canvas, b.list),
    )
}

/// Two calls of `paint_row`.
pub fn row_twice(
    a: &mut PaintLent<'_>,
    b: &mut PaintLent<'_>,
    screen: Screen,
    row: usize,
) -> Twice<Result<Stepped, Refusal>>
    ensures { paint-words a.old ≡ paint-words b.old
        → (result.0 ≡ result.1) × (paint-words a.new ≡ paint-words b.new) }
{
    (
        paint_row(screen, row, &a.stored, &mut a.canvas, a.list),
        paint_row(screen, row, &b.stored, &mut b.canvas, b.list),
    )
}

/// Two calls of `paint_own_row`.
pub fn own_row_twice(
    a: &mut PaintLent<'_>,
    b: &mut PaintLent<'_>,
    screen: Screen,
) -> Twice<Result<Stepped, Refusal>>
    ensures { paint-words a.old ≡ paint-words b.old
        → (result.0 ≡ result.1) × (paint-words a.new ≡ paint-words b.new) }
{
    (
        paint_own_row(screen, &a.stored, &mut a.canvas, a.list),
        paint_own_row(screen, &b.stored, &mut b.canvas, b.list),
    )
}

/// Two calls of `paint_rows`.
pub fn rows_twice(
    a: &mut PaintLent<'_>,
    a_ends: &mut [usize],
    b: &mut PaintLent<'_>,
    b_ends: &mut [usize],
    screen: Screen,
    rows: RowRange,
) -> Twice<Result<usize, Stopped>>
    ensures { (paint-words a.old ≡ paint-words b.old) × (a_ends.old ≡ b_ends.old)
        → (result.0 ≡ result.1) × (paint-words a.new ≡ paint-words b.new) × (a_ends.new ≡ b_ends.new) }
{
    (
        paint_rows(screen, rows, &a.stored, &mut a.canvas, a.list, a_ends),
        paint_rows(screen, rows, &b.stored, &mut b.canvas, b.list, b_ends),
    )
}

/// Which runs are asked for: those of a span of tiles, in a row of a screen.
#[derive(Clone, Copy)]
pub struct RunsAsked {
    pub screen: Screen,
    pub row: usize,
    pub span: TileSpan,
}

/// Two calls of `unset_runs`.
pub fn unset_twice(
    a_depth: &[u32],
    a_list: &mut [u32],
    b_depth: &[u32],
    b_list: &mut [u32],
    asked: RunsAsked,
) -> Twice<Result<usize, Refusal>>
    ensures { (a_depth.now ≡ b_depth.now) × (a_list.old ≡ b_list.old) → (result.0 ≡ result.1) × (a_list.new ≡ b_list.new) }
{
    let RunsAsked { screen, row, span } = asked;
    (
        unset_runs(screen, row, a_depth, span, a_list),
        unset_runs(screen, row, b_depth, span, b_list),
    )
}

/// Two calls of `visible_runs`.
pub fn visible_twice(
    a_depth: &[u32],
    a_list: &mut [u32],
    b_depth: &[u32],
    b_list: &mut [u32],
    asked: RunsAsked,
    draw_id: u32,
) -> Twice<Result<usize, Refusal>>
    ensures { (a_depth.now ≡ b_depth.now) × (a_list.old ≡ b_list.old) → (result.0 ≡ result.1) × (a_list.new ≡ b_list.new) }
{
    let RunsAsked { screen, row, span } = asked;
    (
        visible_runs(screen, row, a_depth, span, draw_id, a_list),
        visible_runs(screen, row, b_depth, span, draw_id, b_list),
    )
}

/// What a run that writes reads and writes.
#[derive(Drop)]
pub struct WriteLent<'a> {
    pub screen: Screen,
    pub depth: Depth<'a>,
    pub list: &'a mut [u32],
}

/// Two calls of `unset_runs_and_write`.
pub fn write_twice(
    a: &mut WriteLent<'_>,
    b: &mut WriteLent<'_>,
    row: usize,
    range: BucketRange,
    draw_id: u32,
) -> Twice<Result<usize, Refusal>>
    ensures { write-words a.old ≡ write-words b.old
        → (result.0 ≡ result.1) × (write-words a.new ≡ write-words b.new) }
{
    (
        unset_runs_and_write(&mut a.screen, row, &mut a.depth, range, draw_id, a.list),
        unset_runs_and_write(&mut b.screen, row, &mut b.depth, range, draw_id, b.list),
    )
}

/// Two calls of `is_hidden`.
pub fn hidden_twice(
    a: &[u32],
    b: &[u32],
    screen: Screen,
    row: usize,
    range: BucketRange,
    draw_id: u32,
) -> Twice<Result<bool, Refusal>>
    ensures { a.now ≡ b.now → result.0 ≡ result.1 }
{
    (
        is_hidden(screen, row, a, range, draw_id),
        is_hidden(screen, row, b, range, draw_id),
    )
}

/// Two calls of `can_skip`.
pub fn skip_twice(
    a: &[u32],
    b: &[u32],
    screen: Screen,
    row: usize,
    span: TileSpan,
    draw_id: u32,
) -> Twice<Result<bool, Refusal>>
    ensures { a.now ≡ b.now → result.0 ≡ result.1 }
{
    (
        can_skip(screen, row, a, span, draw_id),
        can_skip(screen, row, b, span, draw_id),
    )
}
