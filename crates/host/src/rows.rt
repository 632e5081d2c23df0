//! The call for rows of a screen, painted one after the other into one list.
ghost use Rattle.std.specs.Prelude.{◌≡◌, ◌≤◌, List, ℕ};
ghost use Rattle.rules.specs.Answers.{answer};
ghost use Rattle.paint.specs.declared.canvas.stored.Canvas.{Canvas as Paints};
ghost use Rattle.paint.specs.InOrder.{rows_out, rows_told};
ghost use Rattle.paint.specs.Named.{SameCanvas, step_out};
ghost use Rattle.paint.specs.Painting.{listed};
ghost use Rattle.host.specs.State.{refused_at};
ghost use Rattle.host.specs.Held.{words_in};
ghost use Rattle.host.specs.PaintRows.{SureRows, row_range, rows-judged-of, rows_left_in, paint_rows_on};

use crate::state::{StateWords, before_4, screen_at, screen_of};
use crate::sure::sure_buckets;
use paint::canvas::judge::judge_rows;
use paint::rows::{RowRange, Stopped, paint_rows, rows_part};
use paint::{Canvas, Stored};

/// How far rows came: how many are painted to their end, and how many pieces are listed. Laid out as in C.
#[repr(C)]
#[derive(Clone, Copy, Debug, PartialEq, Eq)]
pub struct PaintedRows {
    pub rows: usize,
    pub pieces: usize,
}

// What rows gave: how far they came is stored, and the number given.
fn put_rows(asked: usize, done: Result<usize, Stopped>, painted: &mut PaintedRows) -> u32
    ensures { (c : Paints) (l e : List ℕ) → rows_told asked done c l e ≡ rows_out result painted.new.rows e (step_out (listed painted.new.pieces) c l) }
{
    match done {
        Ok(pieces) => {
            *painted = PaintedRows {
                rows: asked,
                pieces,
            };
            0
        }
        Err(stopped) => {
            *painted = PaintedRows {
                rows: stopped.done,
                pieces: stopped.pieces,
            };
            stopped.refusal.number()
        }
    }
}

// The number where the state's words are no screen's: 2 or 1 as the call would answer, else 4.
#[tactic(auto, unfolding(crate::specs::State::refused_at))]
fn refuse_rows(
    state: &StateWords,
    rows: RowRange,
    stored: &Stored<'_>,
    canvas: &Canvas<'_>,
    ends: usize,
) -> u32
    ensures { result ≡ refused_at (words_in state.now) (rows-judged-of rows stored.now canvas.now ends) }
{
    before_4(judge_rows(
        screen_at(state),
        rows,
        stored,
        canvas.depth.words.len(),
        canvas.depth.minima.len(),
        canvas.painting.len(),
        ends,
    ))
}

// The buckets of a row, at most 64, only where the call would refuse none of the rows for its screen or what is lent; else 65. It looks at the last row.
#[inline(always)]
fn sure_rows(
    state: &StateWords,
    rows: RowRange,
    stored: &Stored<'_>,
    canvas: &Canvas<'_>,
    ends: usize,
) -> usize
    ensures { result ≤ 64 → SureRows state.now rows stored.now canvas.now ends result }
{
    if rows.end <= rows.first || ends < rows.end - rows.first {
        return 65;
    }
    sure_buckets(
        state,
        rows.end - 1,
        stored,
        canvas.depth.words.len(),
        canvas.depth.minima.len(),
        canvas.painting.len(),
    )
}

// Where the one look is not sure.
#[cold]
#[inline(never)]
fn judged_rows(
    state: &StateWords,
    stored: &Stored<'_>,
    canvas: &mut Canvas<'_>,
    rows: RowRange,
    list: &mut [u32],
    ends: &mut [usize],
    painted: &mut PaintedRows,
) -> u32
    ensures same { SameCanvas canvas.old canvas.new }
    ensures rows { answer result (rows_left_in canvas.new list.new ends.new painted.new) ≡ paint_rows_on rows state.now stored.now canvas.old list.old ends.old }
{
    let Some(screen) = screen_of(state, true) else {
        *painted = PaintedRows { rows: 0, pieces: 0 };
        return refuse_rows(state, rows, stored, canvas, ends.len());
    };
    let done = paint_rows(screen, rows, stored, canvas, list, ends);
    put_rows(rows.asked(), done, painted)
}

/// The rows first to end, one after the other, each from where it stands to its end; their pieces stand one after the other in the list, and `ends` says for
/// each row that is painted to its end how many stand there after it. `painted`, on every answer: how many rows are, and how many pieces are listed.
#[unsafe(no_mangle)]
pub extern "C" fn coarse_paint_rows(
    state: &StateWords,
    stored: &Stored<'_>,
    canvas: &mut Canvas<'_>,
    first: usize,
    end: usize,
    list: &mut [u32],
    ends: &mut [usize],
    painted: &mut PaintedRows,
) -> u32
    ensures same { SameCanvas canvas.old canvas.new }
    ensures rows { answer result (rows_left_in canvas.new list.new ends.new painted.new)
        ≡ paint_rows_on (row_range first «end») state.now stored.now canvas.old list.old ends.old }
{
    let rows = RowRange { first, end };
    let b = sure_rows(state, rows, stored, canvas, ends.len());
    if 64 < b {
        return judged_rows(state, stored, canvas, rows, list, ends, painted);
    }
    let done = rows_part(screen_at(state), b, rows, stored, canvas, list, ends);
    put_rows(rows.asked(), done, painted)
}
