//! Spans of tiles, ranges of depth buckets, and the alpha indices of stretches (span.rs; `BucketRange` of depth.rs). The Rust has pixels; here are tile
//! numbers. Parts: where a function asks for tile numbers, its callers have judged them.
#![tactic(auto)]

ghost use Rattle.std.specs.Prelude.{◌≡◌, ◌+◌, ◌-◌, ◌*◌, ◌≤◌, option_map};
ghost use Rattle.rules.specs.Spans.{span, hull, meeting, moved, cut_to};
ghost use Rattle.rules.specs.Depth.{tiles-of};
ghost use Rattle.sizes.specs.Sizes.{tile-end};
ghost use Rattle.sizes.specs.Widths.{bucket-tiles};
ghost use Rattle.span.specs.Spans.{tiles, buckets, Moves, stretch};

use sizes::TILE_ALPHAS;
use sizes::width::Width;

/// From a first tile to an end tile, which is not among them (span.rs, TileAlignedSpan). Laid out as in C: a host lends slices of it.
#[repr(C)]
#[derive(Clone, Copy, Debug, PartialEq, Eq)]
pub struct TileSpan {
    pub first: u32,
    pub end: u32,
}

/// From a first depth bucket to an end bucket, which is not among them.
#[derive(Clone, Copy, Debug, PartialEq, Eq)]
pub struct BucketRange {
    pub first: u32,
    pub end: u32,
}

/// Tiles of one row, with the alpha index of the first of them, if the fill has one; a solid fill has none.
#[derive(Clone, Copy, Debug, PartialEq, Eq)]
pub struct Stretch {
    pub tiles: TileSpan,
    pub alpha: Option<u32>,
}

impl TileSpan {
    /// The span of `count` tiles from `start` on.
    pub fn from_tiles(start: u32, count: u32) -> TileSpan
        requires { start + count ≤ tile-end }
        ensures { tiles result ≡ span start (start + count) }
    {
        TileSpan {
            first: start,
            end: start + count,
        }
    }

    /// Its first tile.
    pub fn tile_x(self) -> u32
        ensures { result ≡ self.first }
    {
        self.first
    }

    /// The tile after its last.
    pub fn tile_end(self) -> u32
        ensures { result ≡ self.end }
    {
        self.end
    }

    /// The number of tiles, 0 where the end is not after the start.
    pub fn tile_count(self) -> u32
        ensures { result ≡ self.end - self.first }
    {
        self.end.saturating_sub(self.first)
    }

    /// The first tile's first pixel. A tile is 4 pixels wide.
    pub fn pixel_x(self) -> u32
        requires { self.first ≤ tile-end }
        ensures { result ≡ 4 * self.first }
    {
        4 * self.first
    }

    /// The pixel after the last tile's last.
    pub fn pixel_end(self) -> u32
        requires { self.end ≤ tile-end }
        ensures { result ≡ 4 * self.end }
    {
        4 * self.end
    }

    /// The smallest span that holds both, by value; the Rust changes the one that is given.
    pub fn extend(self, other: TileSpan) -> TileSpan
        ensures { tiles result ≡ hull (Some (tiles self)) (tiles other) }
    {
        TileSpan {
            first: self.first.min(other.first),
            end: self.end.max(other.end),
        }
    }

    /// The tiles of both; nothing where they only touch.
    #[tactic(auto, unfolding(rules::specs::Spans::meeting))]
    pub fn intersect(self, other: TileSpan) -> Option<TileSpan>
        ensures { option_map tiles result ≡ meeting (tiles self) (tiles other) }
    {
        let first = self.first.max(other.first);
        let end = self.end.min(other.end);
        (first < end).then_some(TileSpan { first, end })
    }
}

impl BucketRange {
    /// The tiles of the buckets, at so many tiles a bucket.
    pub fn span(self, width: Width) -> TileSpan
        requires first { self.first ≤ tile-end }
        requires last { self.end ≤ tile-end }
        ensures { tiles result ≡ tiles-of (bucket-tiles width) (buckets self) }
    {
        TileSpan {
            first: width.times(self.first),
            end: width.times(self.end),
        }
    }
}

/// The alpha index that stands some tiles further right, 16 a tile; none stays none.
pub fn moved(alpha: Option<u32>, tiles: u32) -> Option<u32>
    requires { Moves alpha tiles }
    ensures { result ≡ moved alpha tiles }
{
    alpha.map(|index| index + TILE_ALPHAS * tiles)
}

impl Stretch {
    /// Rule 4: the part inside the bounds, in tiles, or nothing; a cut at the left moves the alpha index.
    #[tactic(auto, using(crate::proofs::Laws::within, crate::proofs::Laws::moves_within), unfolding(rules::specs::Spans::cut_to))]
    pub fn cut_to(self, bounds: TileSpan) -> Option<Stretch>
        requires { Moves self.alpha (self.tiles.end - self.tiles.first) }
        ensures { option_map stretch result ≡ cut_to (tiles bounds) (stretch self) }
    {
        let tiles = self.tiles.intersect(bounds)?;
        Some(Stretch {
            tiles,
            alpha: moved(self.alpha, tiles.first - self.tiles.first),
        })
    }
}
