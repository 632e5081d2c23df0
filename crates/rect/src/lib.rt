//! Boxes in pixels (vello_common's RectU16), and how a viewport is read. Parts: `is_..` judge any numbers; the others take any too, but for the private
//! snapping.
#![tactic(auto)]

ghost use Rattle.std.specs.Prelude.{◌≡◌, ◌≤◌, ◌+◌, ◌/◌};
ghost use Rattle.rules.specs.Boxes.{width, height, empty-box, meet, to-local, bounded, good-dest, good-box, good_viewport, whole, span_of, rows_in, box};
ghost use Rattle.rules.specs.Lists.{range};
ghost use Rattle.rules.specs.Setups.{snapped, viewport-in};
ghost use Rattle.span.specs.Spans.{tiles};
ghost use Rattle.rect.specs.Rects.{box_of, mode_of, seen};
ghost use Rattle.sizes.specs.Sizes.{scene-end};

use sizes::answers::Refusal;
use sizes::{MOST_HEIGHT, MOST_WIDTH, SCENE_END, TILE_HEIGHT, TILE_WIDTH};
use span::TileSpan;
use std::ops::Range;

/// From a left and a top edge to a right and a bottom edge, in pixels; the ends are not in it.
#[derive(Clone, Copy, Debug, PartialEq, Eq)]
pub struct Rect {
    pub x0: u32,
    pub y0: u32,
    pub x1: u32,
    pub y1: u32,
}

/// How a viewport is read: `Exact`, as it is given, or `Snapping`, carried outward to the edges of tiles (rule 1).
#[derive(Clone, Copy, Debug, PartialEq, Eq)]
pub enum Mode {
    Exact,
    Snapping,
}

/// All zeros: what stands for a box where there is none.
pub const NOWHERE: Rect = Rect {
    x0: 0,
    y0: 0,
    x1: 0,
    y1: 0,
};

impl Rect {
    /// Pixels from left to right, 0 where the end is not after the start.
    pub fn width(self) -> u32
        ensures { result ≡ width (box_of self) }
    {
        self.x1.saturating_sub(self.x0)
    }

    /// Pixels from top to bottom, likewise.
    pub fn height(self) -> u32
        ensures { result ≡ height (box_of self) }
    {
        self.y1.saturating_sub(self.y0)
    }

    /// No pixel lies in it.
    pub fn is_empty(self) -> bool
        ensures { result ≡ empty-box (box_of self) }
    {
        self.x1 <= self.x0 || self.y1 <= self.y0
    }

    /// The pixels of both. Where there are none its ends may lie before its starts.
    pub fn intersect(self, other: Rect) -> Rect
        ensures { box_of result ≡ meet (box_of self) (box_of other) }
    {
        Rect {
            x0: self.x0.max(other.x0),
            y0: self.y0.max(other.y0),
            x1: self.x1.min(other.x1),
            y1: self.y1.min(other.y1),
        }
    }

    /// Seen from the pixel x, y; an edge left of it or above it comes to 0.
    pub fn relative_to_origin(self, x: u32, y: u32) -> Rect
        ensures { box_of result ≡ to-local (box x y 0 0) (box_of self) }
    {
        Rect {
            x0: self.x0.saturating_sub(x),
            y0: self.y0.saturating_sub(y),
            x1: self.x1.saturating_sub(x),
            y1: self.y1.saturating_sub(y),
        }
    }

    /// Ends not before starts, all at most 32,768 pixels.
    pub fn is_bounded(self) -> bool
        ensures { result ≡ bounded (box_of self) }
    {
        self.x0 <= self.x1 && self.y0 <= self.y1 && self.x1 <= SCENE_END && self.y1 <= SCENE_END
    }

    /// A filter's dest box: bounded, x in whole tiles; y is free.
    pub fn is_good_dest(self) -> bool
        ensures { result ≡ good-dest (box_of self) }
    {
        self.x0 % TILE_WIDTH == 0 && self.x1 % TILE_WIDTH == 0 && self.is_bounded()
    }

    /// A clip's box: bounded, in whole tiles.
    pub fn is_good(self) -> bool
        ensures { result ≡ good-box (box_of self) }
    {
        self.y0 % TILE_HEIGHT == 0 && self.y1 % TILE_HEIGHT == 0 && self.is_good_dest()
    }

    /// The bounds of a viewport (docs/RULES.md, Measures): a good box of at most 4,096 x 2,048 pixels.
    #[tactic(auto, unfolding(rules::specs::Boxes::good_viewport))]
    pub fn is_good_viewport(self) -> bool
        ensures { result ≡ good_viewport (box_of self) }
    {
        self.is_good() && self.width() <= MOST_WIDTH && self.height() <= MOST_HEIGHT
    }

    // The tile edges around it. Its ends are no further than a viewport's, so no number overflows.
    fn snap_to_tile_coordinates(self) -> Rect
        requires right { self.x1 ≤ scene-end }
        requires bottom { self.y1 ≤ scene-end }
        ensures { box_of result ≡ snapped (box_of self) }
    {
        Rect {
            x0: self.x0 / TILE_WIDTH * TILE_WIDTH,
            y0: self.y0 / TILE_HEIGHT * TILE_HEIGHT,
            x1: (self.x1 + TILE_WIDTH - 1) / TILE_WIDTH * TILE_WIDTH,
            y1: (self.y1 + TILE_HEIGHT - 1) / TILE_HEIGHT * TILE_HEIGHT,
        }
    }

    /// The viewport that a screen has of this box in a mode, or BadViewport, 2: the bounds are judged on the snapped box alone.
    pub fn viewport_in(self, mode: Mode) -> Result<Rect, Refusal>
        ensures { result ≡ seen (viewport-in (mode_of mode) (box_of self)) }
    {
        match mode {
            Mode::Exact => self.viewport(),
            Mode::Snapping if self.x1 <= SCENE_END && self.y1 <= SCENE_END => {
                self.snap_to_tile_coordinates().viewport()
            }
            Mode::Snapping => Err(Refusal::BadViewport),
        }
    }

    // The box itself, if it is a good viewport, else 2.
    #[tactic(auto, unfolding(crate::specs::Rects::seen))]
    fn viewport(self) -> Result<Rect, Refusal>
        ensures { result ≡ seen (box_of self) }
    {
        self.is_good_viewport()
            .then_some(self)
            .ok_or(Refusal::BadViewport)
    }

    /// A box of the same size at 0, 0: the first clip box of this viewport.
    pub fn whole(self) -> Rect
        ensures { box_of result ≡ whole (box_of self) }
    {
        Rect {
            x0: 0,
            y0: 0,
            x1: self.width(),
            y1: self.height(),
        }
    }

    /// The tiles from left to right (bucketer.rs, bbox_span); an empty box has a span of width 0 at its x0.
    #[tactic(auto, unfolding(rules::specs::Boxes::span_of))]
    pub fn bbox_span(self) -> TileSpan
        ensures { tiles result ≡ span_of (box_of self) }
    {
        let first = self.x0 / TILE_WIDTH;
        let end = if self.is_empty() {
            first
        } else {
            self.x1 / TILE_WIDTH
        };
        TileSpan { first, end }
    }

    /// The rows of tiles that it touches, from the first to the one past the last.
    pub fn rows(self) -> Range<usize>
        ensures first { result.start ≡ self.y0 / 4 }
        ensures last { result.end ≡ (self.y1 + 3) / 4 }
        ensures rows { range result.start result.end ≡ rows_in (box_of self) }
    {
        let first = self.y0 / TILE_HEIGHT;
        let end = (self.y1 as usize + 3) / TILE_HEIGHT as usize;
        first as usize..end
    }
}
