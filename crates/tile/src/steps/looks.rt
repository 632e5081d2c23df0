//! What a list of segments is to one tile, before it is cut to the clip box and after.
ghost use Rattle.std.specs.Prelude.{◌≡◌, true, ◌+◌, ◌-◌, ◌*◌};
ghost use Rattle.rules.specs.Spans as rule;
ghost use Rattle.rules.specs.Segments.{good-segment};
ghost use Rattle.span.specs.Spans.{tiles, stretch as stretch-of};
ghost use Rattle.cmd.specs.Good.{GoodAlpha};
ghost use Rattle.rect.specs.Rects.{box_of, Small};
ghost use Rattle.segments.specs.Segs.{segment-of, segs, SceneOf};
ghost use Rattle.tile.specs.Telling as tell;
ghost use Rattle.tile.specs.Telling.{in_row, met};
ghost use Rattle.tile.specs.Places.{Spotted, GoodRun, look-of};
ghost use Rattle.tile.specs.Named.{cover_at, see_at, look_in};

use crate::steps::Spot;
use rect::Rect;
use segments::{Scene, Segment, place, scene_of, segment_at};
use sizes::{TILE_HEIGHT, TILE_WIDTH};
use span::{Stretch, TileSpan, moved};

/// covered: a segment covers the tile before the cut; reached: one is left in its row; kept: one that is left covers it, with the tile's own alpha index, and
/// whether it covers the tile's whole bucket.
#[derive(Clone, Copy, Debug, PartialEq, Eq)]
pub struct Look {
    pub covered: bool,
    pub reached: bool,
    pub kept: bool,
    pub alpha: Option<u32>,
    pub whole: bool,
}

/// The tile is one of the span's.
pub fn covers(span: TileSpan, tile: u32) -> bool
    ensures { result ≡ rule.covers (tiles span) tile }
{
    (span.first..span.end).contains(&tile)
}

/// The box, in pixels, meets the row.
pub fn is_in_row(bbox: Rect, row: u32) -> bool
    requires { Small (box_of bbox) }
    ensures { result ≡ in_row (box_of bbox) row }
{
    bbox.rows().contains(&(row as usize))
}

/// The box, in pixels, meets the tile of the row.
pub fn is_met(bbox: Rect, row: u32, tile: u32) -> bool
    requires { Small (box_of bbox) }
    ensures { result ≡ met (box_of bbox) row tile }
{
    is_in_row(bbox, row) && covers(bbox.bbox_span(), tile)
}

// It covers the tile's whole bucket.
fn is_whole(spot: Spot, span: TileSpan) -> bool
    requires { Spotted spot }
    ensures { result ≡ tell.is_whole spot.width spot.tile (tiles span) }
{
    let first = spot.tile / spot.width * spot.width;
    span.first <= first && first + spot.width <= span.end
}

// What is left of a segment on the row.
fn notice(spot: Spot, look: Look, stretch: Stretch) -> Look
    requires spot { Spotted spot }
    requires stretch { GoodAlpha (tiles stretch.tiles) stretch.alpha }
    ensures { look-of result ≡ tell.noticed spot.width spot.tile (look-of look) (stretch-of stretch) }
{
    if !covers(stretch.tiles, spot.tile) {
        return Look {
            reached: true,
            ..look
        };
    }
    Look {
        covered: look.covered,
        reached: true,
        kept: true,
        alpha: moved(stretch.alpha, spot.tile - stretch.tiles.first),
        whole: is_whole(spot, stretch.tiles),
    }
}

// Whether it covers the tile before the cut.
fn cover(spot: Spot, look: Look, segment: Segment) -> Look
    requires { Spotted spot }
    ensures { look-of result ≡ cover_at spot (look-of look) (segment-of segment) }
{
    let own = TileSpan {
        first: segment.first,
        end: segment.end,
    };
    Look {
        covered: look.covered || covers(own, spot.tile + spot.viewport.x0 / TILE_WIDTH),
        ..look
    }
}

// One more segment; those of other rows say nothing.
fn see(spot: Spot, scene: Scene, clip: Rect, look: Look, segment: Segment) -> Look
    requires spot { Spotted spot }
    requires segment { good-segment (segment-of segment) ≡ true }
    requires scene { SceneOf (box_of spot.viewport) (box_of clip) scene }
    ensures { look-of result ≡ see_at spot clip (look-of look) (segment-of segment) }
{
    if segment.row != spot.row + spot.viewport.y0 / TILE_HEIGHT {
        return look;
    }
    let next = cover(spot, look, segment);
    match place(segment, scene) {
        None => next,
        Some(placed) => notice(spot, next, placed.stretch),
    }
}

/// What the segments from start to end of a list are to the tile, cut to the clip box.
pub fn look_at(spot: Spot, clip: Rect, list: &[u32], start: usize, end: usize) -> Look
    requires spot { Spotted spot }
    requires clip { Small (box_of clip) }
    requires run { GoodRun list.now start «end» }
    ensures { look-of result ≡ look_in spot clip (segs list.now start («end» - start)) }
{
    let scene = scene_of(spot.viewport, clip);
    let mut look = Look {
        covered: false,
        reached: false,
        kept: false,
        alpha: None,
        whole: false,
    };
    for i in start..end {
        look = see(spot, scene, clip, look, segment_at(list, i));
    }
    look
}
