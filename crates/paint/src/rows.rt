//! Rows painted one after the other, into one list. `paint_rows` is a public call; `rows_part` is also a part of a host's, and the others are parts of both.
ghost use Rattle.std.specs.Prelude.{◌≡◌, ◌+◌, ◌-◌, ◌*◌, ◌≤◌, [], length};
ghost use Rattle.sizes.specs.Sizes.{piece-size};
ghost use Rattle.paint.specs.Judging.{wide};
ghost use Rattle.paint.specs.Named.{SameCanvas, step_out, row_lent, row_attrs};
ghost use Rattle.paint.specs.Painting.{StepOut, listed};
ghost use Rattle.paint.specs.Stepping.{number};
ghost use Rattle.paint.specs.Running.{onto, one_more};
ghost use Rattle.paint.specs.InOrder.{RowsReady, RestOf, row_calls, turn, turn_again, turn_of, asked, rows_told, in-order-of, painted-rows};

use crate::canvas::judge::judge_rows;
use crate::canvas::{Canvas, Stepped, Stored};
use crate::whole::run::Went;
use crate::whole::{MOST_STEPS, row_part, row_rest, row_sure};
use screen::Screen;
use sizes::PIECE;
use sizes::answers::Refusal;

/// The rows first to end.
#[derive(Clone, Copy, Debug, PartialEq, Eq)]
pub struct RowRange {
    pub first: usize,
    pub end: usize,
}

impl RowRange {
    /// How many rows; none where first is past end.
    #[inline(always)]
    pub fn asked(self) -> usize
        ensures { result ≡ asked self }
    {
        self.end.saturating_sub(self.first)
    }
}

/// Where rows stopped: how many are painted to their end, how many pieces are listed, and why no more are.
#[derive(Clone, Copy, Debug, PartialEq, Eq)]
pub struct Stopped {
    pub done: usize,
    pub pieces: usize,
    pub refusal: Refusal,
}

/// A row's turn: how many pieces are listed after it, and why it stopped before its end, if it did.
#[derive(Clone, Copy, Debug, PartialEq, Eq)]
pub struct Turn {
    pub pieces: usize,
    pub stop: Option<Refusal>,
}

// A row's steps from where it stands, after so many pieces of the list.
#[inline(always)]
fn row_after(
    screen: Screen,
    b: usize,
    row: usize,
    stored: &Stored<'_>,
    canvas: &mut Canvas<'_>,
    list: &mut [u32],
    pieces: usize,
) -> Result<Stepped, Refusal>
    requires ready { number screen row (row_attrs stored.now) (row_lent stored.now canvas.old []) ≡ 0 }
    requires wide { b ≡ wide screen }
    requires pieces { piece-size * pieces ≤ length list.old }
    ensures same { SameCanvas canvas.old canvas.new }
    ensures painted { step_out (onto pieces result) canvas.new list.new
        ≡ one_more (row_calls screen stored.now row) (step_out (listed pieces) canvas.old list.old) }
    ensures fits { piece-size * (onto pieces result).pieces ≤ length list.old }
{
    let at = PIECE * pieces;
    let done = row_part(screen, b, row, stored, canvas, &mut list[at..], MOST_STEPS)?;
    Ok(Stepped {
        finished: done.finished,
        pieces: pieces + done.pieces,
    })
}

// A row that stopped before its end, after so many pieces, is asked again, which says why.
#[cold]
#[inline(never)]
fn ask_again(
    screen: Screen,
    b: usize,
    row: usize,
    stored: &Stored<'_>,
    canvas: &mut Canvas<'_>,
    list: &mut [u32],
    pieces: usize,
) -> Turn
    requires ready { number screen row (row_attrs stored.now) (row_lent stored.now canvas.old []) ≡ 0 }
    requires wide { b ≡ wide screen }
    requires pieces { piece-size * pieces ≤ length list.old }
    ensures same { SameCanvas canvas.old canvas.new }
    ensures painted { step_out (turn_of result) canvas.new list.new
        ≡ turn_again (row_calls screen stored.now) row (step_out (listed pieces) canvas.old list.old) }
    ensures fits { piece-size * result.pieces ≤ length list.old }
{
    match row_after(screen, b, row, stored, canvas, list, pieces) {
        Err(refusal) => Turn {
            pieces,
            stop: Some(refusal),
        },
        Ok(done) => {
            if done.finished {
                return Turn {
                    pieces: done.pieces,
                    stop: None,
                };
            }
            Turn {
                pieces: done.pieces,
                stop: Some(Refusal::NoRoom),
            }
        }
    }
}

// The rest of a row's turn, after the steps that were sure. Cold, and by reference: the screen is copied here, and not for each row.
#[cold]
#[inline(never)]
fn rest_of_turn(
    screen: &Screen,
    b: usize,
    row: usize,
    stored: &Stored<'_>,
    canvas: &mut Canvas<'_>,
    list: &mut [u32],
    pieces: usize,
    went: Went,
) -> Turn
    requires ready { number screen.now row (row_attrs stored.now) (row_lent stored.now canvas.old []) ≡ 0 }
    requires wide { b ≡ wide screen.now }
    requires pieces { piece-size * (pieces + went.pieces) ≤ length list.old }
    requires none { went.steps ≡ 0 → went.pieces ≡ 0 }
    requires rest { (g : StepOut) × (length g.list ≡ length list.old) × (piece-size * g.answer.pieces ≤ length list.old)
        × RestOf screen.now row stored.now canvas.old list.old pieces went g }
    ensures same { SameCanvas canvas.old canvas.new }
    ensures painted { (g : StepOut) → RestOf screen.now row stored.now canvas.old list.old pieces went g
        → step_out (turn_of result) canvas.new list.new ≡ turn (row_calls screen.now stored.now) row g }
    ensures fits { piece-size * result.pieces ≤ length list.old }
{
    let at = PIECE * pieces;
    match row_rest(
        *screen,
        b,
        row,
        stored,
        canvas,
        &mut list[at..],
        MOST_STEPS,
        went,
    ) {
        Err(refusal) => Turn {
            pieces,
            stop: Some(refusal),
        },
        Ok(done) => {
            let count = pieces + done.pieces;
            if done.finished {
                return Turn {
                    pieces: count,
                    stop: None,
                };
            }
            ask_again(*screen, b, row, stored, canvas, list, count)
        }
    }
}

// A row painted to its end, or as far as it goes. Out of line, the screen by reference: a row's loops have the registers to themselves.
#[inline(never)]
fn turn_row(
    screen: &Screen,
    b: usize,
    row: usize,
    stored: &Stored<'_>,
    canvas: &mut Canvas<'_>,
    list: &mut [u32],
    pieces: usize,
) -> Turn
    requires ready { number screen.now row (row_attrs stored.now) (row_lent stored.now canvas.old []) ≡ 0 }
    requires wide { b ≡ wide screen.now }
    requires pieces { piece-size * pieces ≤ length list.old }
    ensures same { SameCanvas canvas.old canvas.new }
    ensures painted { step_out (turn_of result) canvas.new list.new
        ≡ turn (row_calls screen.now stored.now) row (step_out (listed pieces) canvas.old list.old) }
    ensures fits { piece-size * result.pieces ≤ length list.old }
{
    let at = PIECE * pieces;
    let went = row_sure(*screen, b, row, stored, canvas, &mut list[at..], MOST_STEPS);
    if went.ended {
        return Turn {
            pieces: pieces + went.pieces,
            stop: None,
        };
    }
    rest_of_turn(screen, b, row, stored, canvas, list, pieces, went)
}

/// Rows that are there, of `b` buckets, one after the other, painting having begun: how many pieces are listed. A part of the call, and of a host's.
#[inline(always)]
pub fn rows_part(
    screen: Screen,
    b: usize,
    rows: RowRange,
    stored: &Stored<'_>,
    canvas: &mut Canvas<'_>,
    list: &mut [u32],
    ends: &mut [usize],
) -> Result<usize, Stopped>
    requires wide { b ≡ wide screen }
    requires order { rows.first ≤ rows.«end» }
    requires ready { RowsReady screen rows stored.now canvas.old }
    requires ends { rows.«end» - rows.first ≤ length ends.old }
    ensures same { SameCanvas canvas.old canvas.new }
    ensures painted { rows_told (asked rows) result canvas.new list.new ends.new ≡ in-order-of screen rows stored.now canvas.old list.old ends.old }
{
    let mut pieces = 0;
    for row in rows.first..rows.end {
        let done = row - rows.first;
        let turn = turn_row(&screen, b, row, stored, canvas, list, pieces);
        pieces = turn.pieces;
        if let Some(refusal) = turn.stop {
            return Err(Stopped {
                done,
                pieces,
                refusal,
            });
        }
        ends[done] = pieces;
    }
    Ok(pieces)
}

/// The rows of a range, one after the other, each from where it stands to its end: how many pieces stand in the list, and in `ends`, for each row that is
/// painted to its end, how many stand there after it. Refused, every word staying, as `paint_step`, with BadRun for no range of the screen's rows, and then
/// NoRoom where `ends` is shorter than the range. A row that is refused, or has no room left in the list, stops the call: the rows before it are painted and
/// have their ends, it keeps the steps that it did and their pieces, and the rows behind it change nothing.
pub fn paint_rows(
    screen: Screen,
    rows: RowRange,
    stored: &Stored<'_>,
    canvas: &mut Canvas<'_>,
    list: &mut [u32],
    ends: &mut [usize],
) -> Result<usize, Stopped>
    ensures same { SameCanvas canvas.old canvas.new }
    ensures painted { rows_told (asked rows) result canvas.new list.new ends.new ≡ painted-rows screen rows stored.now canvas.old list.old ends.old }
{
    let judged = judge_rows(
        screen,
        rows,
        stored,
        canvas.depth.words.len(),
        canvas.depth.minima.len(),
        canvas.painting.len(),
        ends.len(),
    );
    if let Err(refusal) = judged {
        return Err(Stopped {
            done: 0,
            pieces: 0,
            refusal,
        });
    }
    let b = screen.buckets();
    rows_part(screen, b, rows, stored, canvas, list, ends)
}
