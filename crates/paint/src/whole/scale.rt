//! A bucket's width as a shift, so that no tile is divided by it.
ghost use Rattle.std.specs.Prelude.{◌≡◌, ◌+◌, ◌-◌, ◌*◌, ◌/◌, ◌^◌, ◌<◌, ◌≤◌};
ghost use Rattle.sizes.specs.Widths.{bucket-tiles};

use sizes::width::Width;

/// How often a tile's number is halved for its bucket's: 4, 5 or 6 times.
#[derive(Clone, Copy, Debug, PartialEq, Eq)]
pub struct Scale {
    pub shift: u32,
    ghost few: { shift ≤ 6 },
}

impl Scale {
    /// That of a width.
    #[inline(always)]
    pub fn of(width: Width) -> Scale
        ensures { 2 ^ result.shift ≡ bucket-tiles width }
    {
        let shift = match width {
            Width::W64 => 4,
            Width::W128 => 5,
            Width::W256 => 6,
        };
        Scale { shift }
    }

    /// The bucket of a tile.
    #[inline(always)]
    pub fn below(self, tile: u32) -> u32
        ensures { result ≡ tile / 2 ^ self.shift }
    {
        tile >> self.shift
    }

    /// The end of the buckets that tiles up to an end meet.
    #[inline(always)]
    pub fn above(self, end: u32) -> u32
        requires { 0 < «end» }
        ensures { result ≡ («end» + (2 ^ self.shift - 1)) / 2 ^ self.shift }
    {
        ((end - 1) >> self.shift) + 1
    }

    /// The first tile of a bucket.
    #[inline(always)]
    pub fn times(self, bucket: u32) -> u32
        requires { bucket * 2 ^ self.shift < 4294967296 }
        ensures { result ≡ bucket * 2 ^ self.shift }
    {
        bucket << self.shift
    }
}
