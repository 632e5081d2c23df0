//! Segment lists: judging them (answers 4 and 5), and cutting their segments to the clip box (rule 4; visit_strip_fill_segments of vello_common). Parts: a list
//! is lent as words, five a segment.
#![tactic(auto)]

ghost use Rattle.std.specs.Prelude.{◌≡◌, true, false, cond, not, ◌+◌, ◌-◌, ◌*◌, ◌≤◌, length, IfSome};
ghost use Rattle.rules.specs.Segments.{good-segment, follows, judge-segments, alpha-of, cut_in};
ghost use Rattle.rules.specs.Answers.{BadRecord, BadOrder};
ghost use Rattle.rules.specs.Lists.{every};
ghost use Rattle.sizes.specs.Refusals.{answer_number, number_of};
ghost use Rattle.rect.specs.Rects.{box_of, Small};
ghost use Rattle.segments.specs.Segs.{segment-of, seg-at, segs, placed_of, origin, bounds, Starts, SceneOf, AtMost};

use rect::Rect;
use sizes::answers::Refusal;
use sizes::{TILE_ALPHAS, TILE_END, TILE_HEIGHT, TILE_WIDTH};
use span::{Stretch, TileSpan};

/// Tiles of one row, in scene tiles. Kind 0 is solid and has alpha 0; kind 1 has an alpha index, that of its first tile.
#[derive(Clone, Copy, Debug, PartialEq, Eq)]
pub struct Segment {
    pub kind: u32,
    pub row: u32,
    pub first: u32,
    pub end: u32,
    pub alpha: u32,
}

/// It stands before the first segment of a list: any good one may follow it.
pub const NO_SEGMENT: Segment = Segment {
    kind: 0,
    row: 0,
    first: 0,
    end: 0,
    alpha: 0,
};

/// Segment i of a list, counted from 0.
pub fn segment_at(list: &[u32], i: usize) -> Segment
    requires { 5 * i + 5 ≤ length list.now }
    ensures { segment-of result ≡ seg-at list.now i }
{
    let at = 5 * i;
    Segment {
        kind: list[at],
        row: list[at + 1],
        first: list[at + 2],
        end: list[at + 3],
        alpha: list[at + 4],
    }
}

impl Segment {
    /// Whether every field is in its bounds (answer 4): row below 8,192, at least one tile, up to tile 8,192, an alpha index that can be moved over all
    /// of them.
    pub fn is_good(self) -> bool
        ensures { result ≡ good-segment (segment-of self) }
    {
        self.kind <= 1
            && self.row < TILE_END
            && self.first < self.end
            && self.end <= TILE_END
            && if self.kind == 0 {
                self.alpha == 0
            } else {
                self.alpha
                    .checked_add(TILE_ALPHAS * (self.end - self.first))
                    .is_some()
            }
    }

    /// Whether this one may stand right before `next` in a list (answer 5): on an earlier row, or on the same one, at most touching it.
    pub fn precedes(self, next: Segment) -> bool
        ensures { result ≡ follows (segment-of self) (segment-of next) }
    {
        self.row < next.row || self.row == next.row && self.end <= next.first
    }

    /// Its alpha index, if it has one.
    pub fn alpha(self) -> Option<u32>
        ensures { result ≡ alpha-of (segment-of self) }
    {
        (self.kind != 0).then_some(self.alpha)
    }
}

// Of the segments from start to end, which stand after a broken order: BadRecord, 4, if one of them is bad, else BadOrder, 5.
#[inline(never)]
fn judge_rest(list: &[u32], start: usize, end: usize) -> Refusal
    requires { (start ≤ «end») × (5 * «end» ≤ length list.now) }
    ensures { number_of result ≡ cond (not (every good-segment (segs list.now start («end» - start)))) BadRecord BadOrder }
{
    for i in start..end {
        if !segment_at(list, i).is_good() {
            return Refusal::BadRecord;
        }
    }
    Refusal::BadOrder
}

/// Of the segments from start to end of a list: BadRecord, 4, if one of them is bad, then BadOrder, 5, if their order is broken.
pub fn judge_segments(list: &[u32], start: usize, end: usize) -> Result<(), Refusal>
    requires order { start ≤ «end» }
    requires within { 5 * «end» ≤ length list.now }
    ensures { answer_number result ≡ judge-segments false (segs list.now start («end» - start)) }
{
    if end <= start {
        return Ok(());
    }
    let mut last = segment_at(list, start);
    if !last.is_good() {
        return Err(Refusal::BadRecord);
    }
    for i in start + 1..end {
        let next = segment_at(list, i);
        if !next.is_good() {
            return Err(Refusal::BadRecord);
        }
        if !last.precedes(next) {
            return Err(judge_rest(list, i + 1, end));
        }
        last = next;
    }
    Ok(())
}

/// The most segments that one row has, of those from start to end of a list, where all are good and in order: one look at each. Without an answer nothing is said of
/// them. Out of line: its loop shares registers with no other.
#[inline(never)]
pub fn most_on_a_row(list: &[u32], start: usize, end: usize) -> Option<usize>
    requires order { start ≤ «end» }
    requires within { 5 * «end» ≤ length list.now }
    ensures { IfSome result (λ m. AtMost m (segs list.now start («end» - start))) }
{
    let mut last = NO_SEGMENT;
    let mut own: usize = 0;
    let mut most: usize = 0;
    for k in start..end {
        let here = segment_at(list, k);
        if here.row != last.row {
            if here.row < last.row {
                return None;
            }
            own = 0;
        } else if here.first < last.end {
            return None;
        }
        if !here.is_good() {
            return None;
        }
        own += 1;
        most = most.max(own);
        last = here;
    }
    Some(most)
}

/// x, y: the viewport's origin in pixels. columns, rows: the clip box in tiles of the scene, from left to right and from top to bottom.
#[derive(Clone, Copy, Debug, PartialEq, Eq)]
pub struct Scene {
    pub x: u32,
    pub y: u32,
    pub columns: TileSpan,
    pub rows: TileSpan,
}

/// The clip box, which is local to the viewport, moved to tiles of the scene.
pub fn scene_of(viewport: Rect, clip: Rect) -> Scene
    requires { Small (box_of viewport) × Small (box_of clip) }
    ensures { SceneOf (box_of viewport) (box_of clip) result }
{
    Scene {
        x: viewport.x0,
        y: viewport.y0,
        columns: TileSpan {
            first: (viewport.x0 + clip.x0) / TILE_WIDTH,
            end: (viewport.x0 + clip.x1) / TILE_WIDTH,
        },
        rows: TileSpan {
            first: (viewport.y0 + clip.y0) / TILE_HEIGHT,
            end: (viewport.y0 + clip.y1) / TILE_HEIGHT,
        },
    }
}

/// What is left of a segment, local to the viewport: the row of the screen, and its tiles there.
#[derive(Clone, Copy, Debug, PartialEq, Eq)]
pub struct Placed {
    pub row: u32,
    pub stretch: Stretch,
}

/// Rule 4: a segment cut to the clip box and made local, or nothing; each tile cut off at the left moves its alpha index by 16.
pub fn place(segment: Segment, scene: Scene) -> Option<Placed>
    requires { (good-segment (segment-of segment) ≡ true) × Starts (origin scene) (bounds scene) }
    ensures { placed_of result ≡ cut_in (origin scene) (bounds scene) (segment-of segment) }
{
    if segment.row < scene.rows.first || scene.rows.end <= segment.row {
        return None;
    }
    let stretch = Stretch {
        tiles: TileSpan {
            first: segment.first,
            end: segment.end,
        },
        alpha: segment.alpha(),
    };
    let left = stretch.cut_to(scene.columns)?;
    let x = scene.x / TILE_WIDTH;
    Some(Placed {
        row: segment.row - scene.y / TILE_HEIGHT,
        stretch: Stretch {
            tiles: TileSpan {
                first: left.tiles.first - x,
                end: left.tiles.end - x,
            },
            alpha: left.alpha,
        },
    })
}
