//! The runs of buckets in one row's depth words (depth.rs, DepthBuffer): a word a bucket, the id of the depth fill there, or 0. Lists have two words a run. The
//! private functions are parts: their callers have judged the range and the room.
ghost use Rattle.std.specs.Prelude.{◌≡◌, ◌≤◌, ◌<◌, ◌*◌, ◌/◌, length, ltb};
ghost use Rattle.sizes.specs.Sizes.{tile-end};
ghost use Rattle.rules.specs.Spans.{span};
ghost use Rattle.rules.specs.Minima.{halvings, minima-room, mended-runs};
ghost use Rattle.rules.specs.Depth.{is-visible, runs-in, unset_answer, visible_answer, written};
ghost use Rattle.span.specs.Spans.{tiles, buckets};
ghost use Rattle.sizes.specs.Widths.{bucket-tiles};
ghost use Rattle.depth.specs.Minima.{SameDepth};
ghost use Rattle.depth.specs.Listing.{out, out-write, done, cut-runs, open-runs, listing, writing, met-end};

use crate::minima::{Depth, has_room, mend_runs};
use crate::search::next_run;
use sizes::TILE_END;
use sizes::answers::Refusal;
use sizes::width::Width;
use span::{BucketRange, TileSpan};

// How many runs of neighbouring buckets from lo to hi hold at most `ceiling`.
fn count_runs(depth: &[u32], lo: usize, hi: usize, ceiling: u32) -> usize
    requires { hi ≤ length depth.now }
    ensures { result ≡ length (runs-in (is-visible ceiling) depth.now (span lo hi)) }
{
    let mut from = lo;
    let mut count: usize = 0;
    while let Some(run) = next_run(depth, from, hi, ceiling) {
        count += 1;
        from = run.end + 1;
    }
    count
}

// Writes those runs to the start of the list, in units of `width` and cut to the span. It gives their number.
fn list_runs(
    depth: &[u32],
    lo: usize,
    hi: usize,
    ceiling: u32,
    width: usize,
    bounds: TileSpan,
    list: &mut [u32],
) -> usize
    requires hi_in_bounds { hi ≤ length depth.now }
    requires width_bound { hi * width < 4294967296 }
    requires hi_in_bounds_2 { length (runs-in (is-visible ceiling) depth.now (span lo hi)) * 2 ≤ length list.old }
    ensures { done result list.new ≡ listing (cut-runs (tiles bounds) width ceiling depth.now lo hi) list.old }
{
    let mut from = lo;
    let mut n: usize = 0;
    while let Some(run) = next_run(depth, from, hi, ceiling) {
        let at = n * 2;
        list[at] = bounds.first.max((run.first * width) as u32);
        list[at + 1] = bounds.end.min((run.end * width) as u32);
        n += 1;
        from = run.end + 1;
    }
    n
}

// Whether a list of so many words is too short for those runs. n buckets have at most (n + 1) / 2 of them: they are counted only where
// the list has less room than that.
fn is_short(depth: &[u32], lo: usize, hi: usize, ceiling: u32, words: usize) -> bool
    requires { hi ≤ length depth.now }
    ensures { result ≡ ltb (words / 2) (length (runs-in (is-visible ceiling) depth.now (span lo hi))) }
{
    let room = words / 2;
    lo < hi && room < (hi - lo + 1) / 2 && room < count_runs(depth, lo, hi, ceiling)
}

// Where the search over a span's buckets ends: at the buffer's end at the latest. An empty span has no bucket to search.
fn met_end(span: TileSpan, buckets: usize, width: Width) -> usize
    requires { span.«end» ≤ tile-end }
    ensures { result ≡ met-end (bucket-tiles width) (tiles span) buckets }
{
    if span.end <= span.first {
        return 0;
    }
    buckets.min(width.above(span.end) as usize)
}

/// The runs of a span's tiles whose buckets hold at most the id, as tiles cut to the span, at the list's start; it gives their number (for_each_visible_run).
/// Buckets past the row's words don't count. BadRun, 12, for a span out of order or past tile 8,192; NoRoom, 14.
pub fn visible_runs(
    depth: &[u32],
    span: TileSpan,
    draw_id: u32,
    list: &mut [u32],
    width: Width,
) -> Result<usize, Refusal>
    ensures { out result list.new ≡ listing (visible_answer (bucket-tiles width) depth.now draw_id (tiles span) (length list.old / 2)) list.old }
{
    if span.end < span.first || TILE_END < span.end {
        return Err(Refusal::BadRun);
    }
    let lo = width.below(span.first) as usize;
    let hi = met_end(span, depth.len(), width);
    if is_short(depth, lo, hi, draw_id, list.len()) {
        return Err(Refusal::NoRoom);
    }
    Ok(list_runs(depth, lo, hi, draw_id, width.tiles() as usize, span, list))
}

/// The runs of a span's tiles whose buckets hold 0 (for_each_unset_run): what is visible at id 0. Refused by 12 and 14, as those.
pub fn unset_runs(
    depth: &[u32],
    span: TileSpan,
    list: &mut [u32],
    width: Width,
) -> Result<usize, Refusal>
    ensures { out result list.new ≡ listing (unset_answer (bucket-tiles width) depth.now (tiles span) (length list.old / 2)) list.old }
{
    visible_runs(depth, span, 0, list, width)
}

// Writes the unset runs from lo to hi to the start of the list, as buckets, and stores the id over them, in the one pass that finds them:
// no bucket is read twice. It gives their number.
#[inline(never)]
fn mark_runs(depth: &mut [u32], lo: usize, hi: usize, draw_id: u32, list: &mut [u32]) -> usize
    requires hi_in_bounds { hi ≤ length depth.old }
    requires hi_bound { hi < 4294967296 }
    requires hi_in_bounds_2 { length (runs-in (is-visible 0) depth.old (span lo hi)) * 2 ≤ length list.old }
    ensures list_after { done result list.new ≡ listing (open-runs depth.old lo hi) list.old }
    ensures depth_after { depth.new ≡ written depth.old draw_id (span lo hi) }
{
    if hi <= lo {
        return 0;
    }
    let mut at = lo;
    let mut found = depth[lo];
    let mut n: usize = 0;
    while at < hi {
        if found == 0 {
            depth[at] = draw_id;
            let mut next = at + 1;
            let stop = loop {
                if hi <= next {
                    break next;
                }
                found = depth[next];
                if 0 < found {
                    break next;
                }
                depth[next] = draw_id;
                next += 1;
            };
            let k = n * 2;
            list[k] = at as u32;
            list[k + 1] = stop as u32;
            n += 1;
            at = stop;
        } else {
            at += 1;
            if at < hi {
                found = depth[at];
            }
        }
    }
    n
}

// The same, and the minima above each run are mended.
fn mark_and_mend(
    words: &mut [u32],
    minima: &mut [u32],
    lo: usize,
    hi: usize,
    draw_id: u32,
    list: &mut [u32],
) -> usize
    requires hi_in_bounds { hi ≤ length words.old }
    requires hi_bound { hi < 4294967296 }
    requires room { length minima.old ≡ minima-room (length words.old) }
    requires list_room { length (runs-in (is-visible 0) words.old (span lo hi)) * 2 ≤ length list.old }
    ensures list_after { done result list.new ≡ listing (open-runs words.old lo hi) list.old }
    ensures words_after { words.new ≡ written words.old draw_id (span lo hi) }
    ensures minima_after { minima.new ≡ mended-runs (halvings (length words.old)) minima.old words.new (runs-in (is-visible 0) words.old (span lo hi)) }
{
    let n = mark_runs(words, lo, hi, draw_id, list);
    mend_runs(minima, draw_id, list, n);
    n
}

// The writing form over a row's words and minima.
#[inline(always)]
fn write_row(
    words: &mut [u32],
    minima: &mut [u32],
    range: BucketRange,
    draw_id: u32,
    list: &mut [u32],
) -> Result<usize, Refusal>
    ensures { out-write result list.new words.new minima.new ≡ writing words.old minima.old draw_id (buckets range) list.old }
{
    if !has_room(minima, words.len()) {
        return Err(Refusal::BadArena);
    }
    let lo = range.first as usize;
    let hi = range.end as usize;
    if hi < lo || words.len() < hi || draw_id == 0 {
        return Err(Refusal::BadRun);
    }
    if is_short(words, lo, hi, 0, list.len()) {
        return Err(Refusal::NoRoom);
    }
    Ok(mark_and_mend(words, minima, lo, hi, draw_id, list))
}

/// Lists the unset runs of a bucket range as buckets, stores the id over them, mends the minima above them, and gives their number
/// (for_each_unset_run_and_write). BadArena, 1, for minima of another length than the words ask for; BadRun, 12, for a range out of order or past the row's
/// words, and for id 0; NoRoom, 14: no word changes.
#[inline(always)]
pub fn unset_runs_and_write(
    depth: &mut Depth<'_>,
    range: BucketRange,
    draw_id: u32,
    list: &mut [u32],
) -> Result<usize, Refusal>
    ensures same { SameDepth depth.old depth.new }
    ensures wrote { out-write result list.new depth.new.words.now depth.new.minima.now
        ≡ writing depth.old.words.now depth.old.minima.now draw_id (buckets range) list.old }
{
    write_row(depth.words, depth.minima, range, draw_id, list)
}
