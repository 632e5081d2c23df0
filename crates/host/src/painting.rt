//! The calls of painting, of the runs of a row, of `is_hidden`, of `can_skip` and of the split. Each refuses as the call of its name in `paint` or `depth`.
ghost use Rattle.std.specs.Prelude.{◌≡◌, ◌≤◌, ◌-◌, ◌*◌, length};
ghost use Rattle.sizes.specs.Sizes.{piece-size};
ghost use Rattle.sizes.specs.Widths.{bucket-tiles};
ghost use Rattle.rules.specs.Answers.{answer};
ghost use Rattle.rules.specs.Spans.{span};
ghost use Rattle.paint.specs.Judging.{wide};
ghost use Rattle.paint.specs.Named.{SameCanvas, RowReady, row_lent, used_attrs};
ghost use Rattle.paint.specs.Running.{most, row-run-on};
ghost use Rattle.host.specs.State.{screen-at};
ghost use Rattle.host.specs.Held.{words_in, one, parts_in, painted_in};
ghost use Rattle.screen.specs.Depths.{depths_in};
ghost use Rattle.host.specs.Called.{canvas_out, step_on, row_on, own_row_on, write_out, write_on};
ghost use Rattle.host.specs.Painting.{begin_call, step_left, unset_call, visible_call, hidden_call, skip_call, split_call};

use crate::border::{
    refuse_begin, refuse_hidden, refuse_own, refuse_runs, refuse_skip, refuse_step, refuse_write,
};
use crate::results::{PaintedWords, SplitWords, put_runs, put_split, put_step, put_yes};
use crate::state::{StateWords, leave, put_screen, screen_at, screen_of};
use crate::sure::sure_buckets;
use depth::split_opaque_span;
use paint::whole::run::Went;
use paint::whole::{MOST_STEPS, row_rest, row_step, row_sure};
use paint::{
    Canvas, Stepped, Stored, begin_painting, can_skip, is_hidden, paint_own_row, paint_row,
    paint_step, unset_runs, unset_runs_and_write, visible_runs,
};
use sizes::width::Width;
use span::{BucketRange, TileSpan};

/// Clears the depth words, makes their minima afresh, and sets every row to its first step, at nesting 0.
#[unsafe(no_mangle)]
#[tactic(auto, using(crate::proofs::Unheld::begin_unheld))]
pub extern "C" fn coarse_begin_painting(state: &mut StateWords, canvas: &mut Canvas<'_>) -> u32
    ensures same { SameCanvas canvas.old canvas.new }
    ensures begun { answer result (words_in state.new, depths_in canvas.new.depth, canvas.new.painting.now)
        ≡ begin_call (words_in state.old) (depths_in canvas.old.depth) canvas.old.painting.now }
{
    let Some(mut screen) = screen_of(state, true) else {
        return refuse_begin(
            state,
            canvas.depth.words.len(),
            canvas.depth.minima.len(),
            canvas.painting.len(),
        );
    };
    let done = begin_painting(&mut screen, canvas);
    leave(state, screen, done)
}

// Where the one look is not sure.
#[cold]
#[inline(never)]
#[tactic(auto, using(crate::proofs::Unheld::step_unheld))]
fn judged_step(
    state: &StateWords,
    stored: &Stored<'_>,
    canvas: &mut Canvas<'_>,
    row: usize,
    list: &mut [u32],
    painted: &mut PaintedWords,
) -> u32
    ensures same { SameCanvas canvas.old canvas.new }
    ensures step { answer result (canvas_out canvas.new list.new painted.new) ≡ step_on row state.now stored.now canvas.old list.old painted.old }
{
    let Some(screen) = screen_of(state, true) else {
        return refuse_step(
            state,
            row,
            stored,
            canvas.depth.words.len(),
            canvas.depth.minima.len(),
            canvas.painting.len(),
        );
    };
    let done = paint_step(screen, row, stored, canvas, list);
    put_step(done, painted)
}

/// The next step of a row; its pieces in list. painted: 1 if none was left, else 0; how many pieces are listed.
#[unsafe(no_mangle)]
pub extern "C" fn coarse_paint_step(
    state: &StateWords,
    stored: &Stored<'_>,
    canvas: &mut Canvas<'_>,
    row: usize,
    list: &mut [u32],
    painted: &mut PaintedWords,
) -> u32
    ensures same { SameCanvas canvas.old canvas.new }
    ensures step { answer result (canvas_out canvas.new list.new painted.new) ≡ step_on row state.now stored.now canvas.old list.old painted.old }
{
    let b = sure_buckets(
        state,
        row,
        stored,
        canvas.depth.words.len(),
        canvas.depth.minima.len(),
        canvas.painting.len(),
    );
    if 64 < b {
        return judged_step(state, stored, canvas, row, list, painted);
    }
    let Some(done) = row_step(screen_at(state), b, row, stored, canvas, list) else {
        return judged_step(state, stored, canvas, row, list, painted);
    };
    put_step(Ok(done), painted)
}

// Where the one look is not sure.
#[cold]
#[inline(never)]
#[tactic(auto, using(crate::proofs::Unheld::row_unheld))]
fn judged_row(
    state: &StateWords,
    stored: &Stored<'_>,
    canvas: &mut Canvas<'_>,
    row: usize,
    list: &mut [u32],
    painted: &mut PaintedWords,
) -> u32
    ensures same { SameCanvas canvas.old canvas.new }
    ensures row { answer result (canvas_out canvas.new list.new painted.new) ≡ row_on row state.now stored.now canvas.old list.old painted.old }
{
    let Some(screen) = screen_of(state, true) else {
        return refuse_step(
            state,
            row,
            stored,
            canvas.depth.words.len(),
            canvas.depth.minima.len(),
            canvas.painting.len(),
        );
    };
    let done = paint_row(screen, row, stored, canvas, list);
    put_step(done, painted)
}

// The steps of a row after those that were sure.
#[cold]
#[inline(never)]
fn rest_of_row(
    state: &StateWords,
    stored: &Stored<'_>,
    canvas: &mut Canvas<'_>,
    row: usize,
    list: &mut [u32],
    painted: &mut PaintedWords,
    b: usize,
    went: Went,
) -> u32
    requires pieces { piece-size * went.pieces ≤ length list.old }
    requires none { went.steps ≡ 0 → went.pieces ≡ 0 }
    requires wide { b ≡ wide (screen-at (words_in state.now)) }
    requires ready { RowReady (screen-at (words_in state.now)) row stored.now canvas.old list.old }
    ensures same { SameCanvas canvas.old canvas.new }
    ensures rest { let s = screen-at (words_in state.now) in answer result (canvas_out canvas.new list.new painted.new)
        ≡ step_left (painted_in painted.old) (row-run-on (bucket-tiles s.width) (most - went.steps) went.steps went.pieces (used_attrs s stored.now)
        (wide s) s.c s.d row (row_lent stored.now canvas.old list.old)) }
{
    let done = row_rest(
        screen_at(state),
        b,
        row,
        stored,
        canvas,
        list,
        MOST_STEPS,
        went,
    );
    put_step(done, painted)
}

/// A row's steps from where it stands to its end, or up to the first that is refused. painted: 1 if the row has come to its end, else 0; how many
/// pieces are listed.
#[unsafe(no_mangle)]
pub extern "C" fn coarse_paint_row(
    state: &StateWords,
    stored: &Stored<'_>,
    canvas: &mut Canvas<'_>,
    row: usize,
    list: &mut [u32],
    painted: &mut PaintedWords,
) -> u32
    ensures same { SameCanvas canvas.old canvas.new }
    ensures row { answer result (canvas_out canvas.new list.new painted.new) ≡ row_on row state.now stored.now canvas.old list.old painted.old }
{
    let b = sure_buckets(
        state,
        row,
        stored,
        canvas.depth.words.len(),
        canvas.depth.minima.len(),
        canvas.painting.len(),
    );
    if 64 < b {
        return judged_row(state, stored, canvas, row, list, painted);
    }
    let went = row_sure(screen_at(state), b, row, stored, canvas, list, MOST_STEPS);
    if !went.ended {
        return rest_of_row(state, stored, canvas, row, list, painted, b, went);
    }
    let done = Stepped {
        finished: true,
        pieces: went.pieces,
    };
    put_step(Ok(done), painted)
}

/// A row's steps from where it stands to its end, or up to the first that is refused, on the row's own words: the stored words and the canvas are of that row
/// alone, the tables of attributes whole. painted: as `coarse_paint_row`.
#[unsafe(no_mangle)]
#[tactic(auto, using(crate::proofs::Unheld::own_unheld))]
pub extern "C" fn coarse_paint_own_row(
    state: &StateWords,
    stored: &Stored<'_>,
    canvas: &mut Canvas<'_>,
    list: &mut [u32],
    painted: &mut PaintedWords,
) -> u32
    ensures same { SameCanvas canvas.old canvas.new }
    ensures row { answer result (canvas_out canvas.new list.new painted.new) ≡ own_row_on state.now stored.now canvas.old list.old painted.old }
{
    let Some(screen) = screen_of(state, true) else {
        return refuse_own(
            state,
            stored,
            canvas.depth.words.len(),
            canvas.depth.minima.len(),
            canvas.painting.len(),
        );
    };
    let done = paint_own_row(screen, stored, canvas, list);
    put_step(done, painted)
}

/// The runs of the tiles first to end whose buckets hold 0, two words each in list; count: how many.
#[unsafe(no_mangle)]
#[tactic(auto, using(crate::proofs::Unheld::unset_unheld))]
pub extern "C" fn coarse_unset_runs(
    state: &StateWords,
    canvas: &Canvas<'_>,
    row: usize,
    tiles: TileSpan,
    list: &mut [u32],
    count: &mut usize,
) -> u32
    ensures { answer result (list.new, one count.new)
        ≡ unset_call row (span tiles.first tiles.end) (words_in state.now) canvas.now.depth.words.now list.old (one count.old) }
{
    let Some(screen) = screen_of(state, true) else {
        return refuse_runs(state, row, canvas.depth.words.len());
    };
    let runs = unset_runs(screen, row, canvas.depth.words, tiles, list);
    put_runs(runs, count)
}

/// The runs of the tiles first to end whose buckets hold at most the id, two words each in list; count: how many.
#[unsafe(no_mangle)]
#[tactic(auto, using(crate::proofs::Unheld::visible_unheld))]
pub extern "C" fn coarse_visible_runs(
    state: &StateWords,
    canvas: &Canvas<'_>,
    row: usize,
    tiles: TileSpan,
    id: u32,
    list: &mut [u32],
    count: &mut usize,
) -> u32
    ensures { answer result (list.new, one count.new)
        ≡ visible_call row (span tiles.first tiles.end) id (words_in state.now) canvas.now.depth.words.now list.old (one count.old) }
{
    let Some(screen) = screen_of(state, true) else {
        return refuse_runs(state, row, canvas.depth.words.len());
    };
    let runs = visible_runs(screen, row, canvas.depth.words, tiles, id, list);
    put_runs(runs, count)
}

/// Lists the unset runs of the buckets first to end, as buckets, stores the id there and mends the minima above; count: how many. Done, it ends painting.
#[unsafe(no_mangle)]
#[tactic(auto, using(crate::proofs::Unheld::write_unheld))]
pub extern "C" fn coarse_unset_runs_and_write(
    state: &mut StateWords,
    canvas: &mut Canvas<'_>,
    row: usize,
    buckets: TileSpan,
    id: u32,
    list: &mut [u32],
    count: &mut usize,
) -> u32
    ensures same { SameCanvas canvas.old canvas.new }
    ensures kept { canvas.new.painting.now ≡ canvas.old.painting.now }
    ensures written { answer result (write_out state.new canvas.new list.new count.new) ≡ write_on row buckets id state.old canvas.old list.old count.old }
{
    let Some(mut screen) = screen_of(state, true) else {
        return refuse_write(
            state,
            row,
            canvas.depth.words.len(),
            canvas.depth.minima.len(),
        );
    };
    let range = BucketRange {
        first: buckets.first,
        end: buckets.end,
    };
    let runs = unset_runs_and_write(&mut screen, row, &mut canvas.depth, range, id, list);
    put_screen(state, screen);
    put_runs(runs, count)
}

/// Whether every bucket from first to end is hidden from an id, by the minima alone; yes: 1 or 0.
#[unsafe(no_mangle)]
#[tactic(auto, using(crate::proofs::Unheld::hidden_unheld))]
pub extern "C" fn coarse_is_hidden(
    state: &StateWords,
    minima: &[u32],
    row: usize,
    buckets: TileSpan,
    id: u32,
    yes: &mut u32,
) -> u32
    ensures { answer result (one yes.new)
        ≡ hidden_call row (span buckets.first buckets.end) id (words_in state.now) minima.now (one yes.old) }
{
    let Some(screen) = screen_of(state, true) else {
        return refuse_hidden(state, row, minima.len());
    };
    let range = BucketRange {
        first: buckets.first,
        end: buckets.end,
    };
    put_yes(is_hidden(screen, row, minima, range, id), yes)
}

/// Whether a draw over the tiles first to end need not look at the row's depth words; yes: 1 or 0.
#[unsafe(no_mangle)]
#[tactic(auto, using(crate::proofs::Unheld::skip_unheld))]
pub extern "C" fn coarse_can_skip(
    state: &StateWords,
    stored: &Stored<'_>,
    row: usize,
    tiles: TileSpan,
    id: u32,
    yes: &mut u32,
) -> u32
    ensures { answer result (one yes.new)
        ≡ skip_call row (span tiles.first tiles.end) id (words_in state.now) stored.now.rows.now (one yes.old) }
{
    let Some(screen) = screen_of(state, true) else {
        return refuse_skip(state, row, stored.rows.len());
    };
    let skip = can_skip(screen, row, stored.rows, tiles, id);
    put_yes(skip, yes)
}

/// Rule 7: the parts of an opaque span, at so many pixels a bucket. 2 for no width of a bucket, 12 for no range.
#[unsafe(no_mangle)]
#[tactic(auto, unfolding(crate::specs::Painting::split_call))]
pub extern "C" fn coarse_split_opaque_span(
    tiles: TileSpan,
    pixels: u32,
    parts: &mut SplitWords,
) -> u32
    ensures { answer result (parts_in parts.new) ≡ split_call pixels (span tiles.first tiles.end) (parts_in parts.old) }
{
    let width = match Width::try_from(pixels) {
        Ok(width) => width,
        Err(refusal) => return refusal.number(),
    };
    put_split(parts, split_opaque_span(tiles, width))
}
