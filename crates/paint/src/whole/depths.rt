//! A row's depth fills, in one loop, as far as each is good. Parts: where a function asks something, its callers have judged it.
ghost use Rattle.std.specs.Prelude.{◌≡◌, ◌+◌, ◌-◌, ◌*◌, ◌/◌, ◌≤◌, ◌<◌, ℕ, [], ◌∷◌, length, get_or, MatchBool};
ghost use Rattle.sizes.specs.Sizes.{most-layers, piece-size};
ghost use Rattle.rules.specs.Lists.{join};
ghost use Rattle.rules.specs.Depth.{write-runs, written};
ghost use Rattle.rules.specs.Minima.{minima-room, halvings, mended-runs};
ghost use Rattle.span.specs.Spans.{buckets};
ghost use Rattle.cmd.specs.Attrs.{words-at};
ghost use Rattle.screen.specs.Depths.{depths};
ghost use Rattle.paint.specs.Painting.{word, out, listed};
ghost use Rattle.paint.specs.Kinds.{Onward};
ghost use Rattle.paint.specs.Rows.{CalmRow, Stay, DepthStep, steps_of, count_of};
ghost use Rattle.paint.specs.DepthFills.{MarksRun, depth-words};
ghost use Rattle.paint.specs.Scales.{tiles_in};

use crate::command::{Mark, StoredRow};
use crate::whole::pieces::Pieces;
use crate::whole::scale::Scale;
use cmd::depth_fill::{DepthFill, DepthWords};
use cmd::piece::PieceWords;
use depth::minima::mend;
use sizes::PIECE;

// The unset buckets from `first` on, before hi, get the id: where they end. The first has been read.
#[inline(always)]
fn mark_run(depth: &mut [u32], first: usize, hi: usize, id: u32) -> usize
    requires range { (first < hi) × (hi ≤ length depth.old) }
    requires unset { get_or depth.old first 0 ≡ 0 }
    ensures { MarksRun id hi first depth.old depth.new result }
{
    depth[first] = id;
    let mut b = first + 1;
    while b < hi && depth[b] == 0 {
        depth[b] = id;
        b += 1;
    }
    b
}

// The unset runs of a fill become pieces, and get its id; the minima above each are mended.
#[inline(always)]
fn put_depth(
    depth: &mut [u32],
    minima: &mut [u32],
    fill: DepthFill,
    mark: Mark,
    scale: Scale,
    pieces: &mut Pieces<'_>,
)
    requires good { (fill.buckets.first ≤ fill.buckets.«end») × (fill.buckets.«end» ≤ length depth.old) × (length depth.old ≤ 65535) × (0 < mark.id) }
    requires minima { length minima.old ≡ minima-room (length depth.old) }
    requires room { pieces.old.at + piece-size * length (write-runs depth.old (buckets fill.buckets)) ≤ length pieces.old.list.now }
    ensures same { pieces.new.list.ghost_name ≡ pieces.old.list.ghost_name }
    ensures depth { depth.new ≡ written depth.old mark.id (buckets fill.buckets) }
    ensures minima { minima.new ≡ mended-runs (halvings (length depth.old)) minima.old depth.new (write-runs depth.old (buckets fill.buckets)) }
    ensures long { length minima.new ≡ length minima.old }
    ensures at { pieces.new.at ≡ pieces.old.at + piece-size * length (write-runs depth.old (buckets fill.buckets)) }
    ensures list { pieces.new.list.now ≡ words-at pieces.old.list.now pieces.old.at
        (join (depth-words (tiles_in scale) fill.attrs_idx mark.panel) (write-runs depth.old (buckets fill.buckets))) }
{
    let hi = fill.buckets.end as usize;
    let mut b = fill.buckets.first as usize;
    while b < hi {
        if depth[b] == 0 {
            let first = b;
            b = mark_run(depth, first, hi, mark.id);
            mend(minima, first, b, mark.id);
            pieces.push(PieceWords {
                tag: 1,
                attrs_idx: fill.attrs_idx,
                first: scale.times(first as u32),
                end: scale.times(b as u32),
                alpha: 0,
                nesting: 0,
                panel: mark.panel,
            });
        }
        b += 1;
    }
}

/// A row's depth fill at place k, if it is good and the list has room for whatever it may show: it is painted. Else nothing changes.
#[inline(always)]
pub fn settle_depth(
    row: &StoredRow<'_>,
    depth: &mut [u32],
    minima: &mut [u32],
    k: usize,
    pieces: &mut Pieces<'_>,
) -> bool
    requires calm { CalmRow row.now }
    requires there { k < word row.now.state.now 1 }
    requires few { length depth.old ≤ 65535 }
    requires minima { length minima.old ≡ minima-room (length depth.old) }
    ensures same { pieces.new.list.ghost_name ≡ pieces.old.list.ghost_name }
    ensures long { (length depth.new ≡ length depth.old) × (length minima.new ≡ length minima.old) × (length pieces.new.list.now ≡ length pieces.old.list.now) }
    ensures settled { MatchBool result (DepthStep row.now k (depths depth.old minima.old) pieces.old (depths depth.new minima.new) pieces.new)
        ((depth.new ≡ depth.old) × (minima.new ≡ minima.old) × Stay pieces.old pieces.new) }
{
    let words = DepthWords::at(row.depth_cmds, k);
    let Some(fill) = words.read(depth.len() as u32) else {
        return false;
    };
    let Some(mark) = row.attrs.paint(fill.attrs_idx) else {
        return false;
    };
    let most = (fill.buckets.end - fill.buckets.first + 1) as usize / 2;
    if !pieces.has_room(PIECE * most) {
        return false;
    }
    let scale = Scale::of(row.width);
    put_depth(depth, minima, fill, mark, scale, pieces);
    true
}

/// How many of a row's last `left` depth fills are painted: at most `limit`, as long as each is good and the list has room for whatever it may show.
#[inline(always)]
pub fn run_depths(
    row: &StoredRow<'_>,
    depth: &mut [u32],
    minima: &mut [u32],
    left: usize,
    limit: usize,
    pieces: &mut Pieces<'_>,
) -> usize
    requires calm { CalmRow row.now }
    requires left { left ≤ word row.now.state.now 1 }
    requires few { length depth.old ≤ 65535 }
    requires minima { length minima.old ≡ minima-room (length depth.old) }
    ensures same { pieces.new.list.ghost_name ≡ pieces.old.list.ghost_name }
    ensures long { (length depth.new ≡ length depth.old) × (length minima.new ≡ length minima.old) × (length pieces.new.list.now ≡ length pieces.old.list.now) }
    ensures few { (result ≤ left) × (result ≤ limit) }
    ensures onward { (m : ℕ) → m ≤ most-layers → let done = word row.now.state.now 1 - left in Onward (steps_of row.now) result
        (out (listed (count_of pieces.old)) (depths depth.old minima.old) (done ∷ m ∷ []) pieces.old.list.now)
        (out (listed (count_of pieces.new)) (depths depth.new minima.new) ((done + result) ∷ m ∷ []) pieces.new.list.now) }
{
    let own = *row;
    let stop = left - limit.min(left);
    let mut k = left;
    while stop < k {
        if !settle_depth(&own, depth, minima, k - 1, pieces) {
            break;
        }
        k -= 1;
    }
    left - k
}
