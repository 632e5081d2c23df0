//! How wide a depth bucket is, and all arithmetic with it. But for `NARROWEST`, no other source line knows how many tiles a bucket has.
ghost use Rattle.std.specs.Prelude.{◌≡◌, ◌+◌, ◌-◌, ◌*◌, ◌/◌, ◌%◌, ◌^◌, ◌≤◌};
ghost use Rattle.sizes.specs.Sizes.{tile-end};
ghost use Rattle.sizes.specs.Widths.{bucket-tiles, width_of};

use crate::answers::Refusal;

/// A bucket is 64, 128 or 256 pixels wide, which are 16, 32 or 64 tiles. The Rust has the constant DEPTH_BUCKET_WIDTH of depth.rs, 128 pixels, in its place.
#[derive(Clone, Copy, Debug, PartialEq, Eq)]
pub enum Width {
    W64,
    W128,
    W256,
}

// No other number of pixels is a width: answer 2.
impl TryFrom<u32> for Width {
    type Error = Refusal;

    ghost try_from_gives = { λ pixels r. r ≡ width_of pixels };

    fn try_from(pixels: u32) -> Result<Width, Refusal> {
        match pixels {
            64 => Ok(Width::W64),
            128 => Ok(Width::W128),
            256 => Ok(Width::W256),
            _ => Err(Refusal::BadViewport),
        }
    }
}

// But for the tiles of a bucket, all is by a shift, which loops keep in a register.
impl Width {
    /// The tiles of one bucket.
    pub fn tiles(self) -> u32
        ensures { result ≡ bucket-tiles self }
    {
        match self {
            Width::W64 => 16,
            Width::W128 => 32,
            Width::W256 => 64,
        }
    }

    // How often a tile's number is halved for its bucket's.
    fn shift(self) -> u32
        ensures { (2 ^ result ≡ bucket-tiles self) × (result ≤ 6) }
    {
        match self {
            Width::W64 => 4,
            Width::W128 => 5,
            Width::W256 => 6,
        }
    }

    /// The number of the bucket that a tile lies in.
    pub fn below(self, tile: u32) -> u32
        ensures { result ≡ tile / bucket-tiles self }
    {
        tile >> self.shift()
    }

    /// The number of the first bucket that starts no earlier than a tile: as an end, the buckets up to a tile. The tiles of any word of pixels keep its
    /// `requires`.
    pub fn above(self, tile: u32) -> u32
        requires { tile ≤ 1073741823 }
        ensures { result ≡ (tile + (bucket-tiles self - 1)) / bucket-tiles self }
    {
        let k = self.shift();
        (tile + ((1u32 << k) - 1)) >> k
    }

    /// Where a tile stands in its bucket, counted from 0.
    pub fn within(self, tile: u32) -> u32
        ensures { result ≡ tile % bucket-tiles self }
    {
        match self {
            Width::W64 => tile % 16,
            Width::W128 => tile % 32,
            Width::W256 => tile % 64,
        }
    }

    /// The first tile of a bucket.
    pub fn times(self, bucket: u32) -> u32
        requires { bucket ≤ tile-end }
        ensures { result ≡ bucket * bucket-tiles self }
    {
        bucket << self.shift()
    }
}
