//! The runs of a row's depth words, what is hidden there, and its `can_skip`, by the row's number. The row's own part is cut out and handed on.
ghost use Rattle.std.specs.Prelude.{◌≡◌, length};
ghost use Rattle.sizes.specs.Sizes.{row-size};
ghost use Rattle.span.specs.Spans.{tiles, buckets};
ghost use Rattle.depth.specs.Answers.{skip_of, hidden_of};
ghost use Rattle.depth.specs.Minima.{SameDepth};
ghost use Rattle.depth.specs.Listing.{out, out-write, writing};
ghost use Rattle.screen.specs.Depths.{depths_in};
ghost use Rattle.paint.specs.DirectRuns.{unset-of, visible-of, wrote, write-of, hidden-of-row, record-skip, skip-of-row};

use crate::canvas::judge::{judge_hidden, judge_runs, judge_skip, judge_write};
use crate::shown::summary_of;
use depth::{Depth, minima_room};
use row::judge::is_good_summary;
use row::part;
use screen::Screen;
use sizes::ROW;
use sizes::answers::Refusal;
use span::{BucketRange, TileSpan};

/// The runs of a span's tiles whose buckets hold 0; how many. 2, 1, 4, 12 for no such row or no range, 14.
#[tactic(auto, using(crate::proofs::ScreenParts::depth_within, crate::proofs::ScreenRuns::unset_done))]
pub fn unset_runs(
    screen: Screen,
    row: usize,
    depth: &[u32],
    span: TileSpan,
    list: &mut [u32],
) -> Result<usize, Refusal>
    ensures { out result list.new ≡ unset-of screen row depth.now (tiles span) list.old }
{
    judge_runs(screen, row, depth.len())?;
    depth::unset_runs(part(depth, screen.buckets(), row), span, list, screen.width)
}

/// The runs of a span's tiles whose buckets hold at most the id; how many. 2, 1, 4, 12 for no such row or no range, 14.
#[tactic(auto, using(crate::proofs::ScreenParts::depth_within, crate::proofs::ScreenRuns::visible_done))]
pub fn visible_runs(
    screen: Screen,
    row: usize,
    depth: &[u32],
    span: TileSpan,
    draw_id: u32,
    list: &mut [u32],
) -> Result<usize, Refusal>
    ensures { out result list.new ≡ visible-of screen row depth.now (tiles span) draw_id list.old }
{
    judge_runs(screen, row, depth.len())?;
    depth::visible_runs(
        part(depth, screen.buckets(), row),
        span,
        draw_id,
        list,
        screen.width,
    )
}

/// The writing run over one row's own words and minima, lent one by one.
pub fn write_part(
    words: &mut [u32],
    minima: &mut [u32],
    range: BucketRange,
    draw_id: u32,
    list: &mut [u32],
) -> Result<usize, Refusal>
    ensures { out-write result list.new words.new minima.new ≡ writing words.old minima.old draw_id (buckets range) list.old }
{
    let mut own = Depth { words, minima };
    depth::unset_runs_and_write(&mut own, range, draw_id, list)
}

/// Lists the unset runs of a bucket range as buckets, stores the id there, and mends the minima above; how many. Done, it ends painting. 2, 1, 4, 12 for no
/// such row, no range or id 0, 14: refused, the screen and every word stay.
pub fn unset_runs_and_write(
    screen: &mut Screen,
    row: usize,
    depth: &mut Depth<'_>,
    range: BucketRange,
    draw_id: u32,
    list: &mut [u32],
) -> Result<usize, Refusal>
    ensures same { SameDepth depth.old depth.new }
    ensures wrote { wrote result screen.new list.new (depths_in depth.new) ≡ write-of screen.old row (depths_in depth.old) draw_id (buckets range) list.old }
{
    judge_write(*screen, row, depth.words.len(), depth.minima.len())?;
    let b = screen.buckets();
    let m = minima_room(b);
    let at = row * b;
    let over = row * m;
    let n = write_part(
        &mut depth.words[at..at + b],
        &mut depth.minima[over..over + m],
        range,
        draw_id,
        list,
    )?;
    screen.painting = false;
    Ok(n)
}

/// Whether every bucket of a range of a row is hidden from an id, by the minima alone: each holds a greater id, if they are those of the row's depth words. 2,
/// 1 for the minima, 4 for the screen, 12 for no such row or no range of its buckets.
pub fn is_hidden(
    screen: Screen,
    row: usize,
    minima: &[u32],
    range: BucketRange,
    draw_id: u32,
) -> Result<bool, Refusal>
    ensures { hidden_of result ≡ hidden-of-row screen row minima.now (buckets range) draw_id }
{
    judge_hidden(screen, row, minima.len())?;
    let b = screen.buckets();
    depth::is_hidden(part(minima, minima_room(b), row), b, range, draw_id)
}

// By the row's record: 4 for its summary, 12 for no range.
fn skip_by(state: &[u32], span: TileSpan, draw_id: u32) -> Result<bool, Refusal>
    requires { length state.now ≡ row-size }
    ensures { skip_of result ≡ record-skip state.now (tiles span) draw_id }
{
    if !is_good_summary(state) {
        return Err(Refusal::BadRecord);
    }
    summary_of(state).can_skip(span, draw_id)
}

/// Whether a draw need not look at the row's depth words: no depth fill of the row is above it, or the span of tiles meets none (bucketer.rs, can_skip_depth).
/// 2, 1, 4, 12 for no such row or no range.
#[tactic(auto, using(crate::proofs::ScreenParts::state_within, crate::proofs::ScreenRuns::skip_done))]
pub fn can_skip(
    screen: Screen,
    row: usize,
    rows: &[u32],
    span: TileSpan,
    draw_id: u32,
) -> Result<bool, Refusal>
    ensures { skip_of result ≡ skip-of-row screen row rows.now (tiles span) draw_id }
{
    judge_skip(screen, row, rows.len())?;
    skip_by(part(rows, ROW, row), span, draw_id)
}
