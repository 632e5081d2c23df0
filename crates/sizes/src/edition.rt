//! The editions of a recording file: which there are, and how long a record is in each.
ghost use Rattle.std.specs.Prelude.{◌≡◌, ◌≤◌};
ghost use Rattle.sizes.specs.Editions.{draw-size, layer-size, edition_of};

use crate::answers::Refusal;

/// The edition of a recording file. It is told with the file and never found out from the words. In edition two a draw and a layer end in a panel's word.
#[derive(Clone, Copy, Debug, PartialEq, Eq)]
pub enum Edition {
    One,
    Two,
}

// No other number is an edition: answer 3.
impl TryFrom<u32> for Edition {
    type Error = Refusal;

    ghost try_from_gives = { λ number r. r ≡ edition_of number };

    fn try_from(number: u32) -> Result<Edition, Refusal> {
        match number {
            1 => Ok(Edition::One),
            2 => Ok(Edition::Two),
            _ => Err(Refusal::BadForm),
        }
    }
}

impl Edition {
    /// The words of a draw's record.
    pub fn draw(self) -> usize
        ensures same { result ≡ draw-size self }
        ensures few { result ≤ 8 }
    {
        match self {
            Edition::One => 7,
            Edition::Two => 8,
        }
    }

    /// The words of a layer's record.
    pub fn layer(self) -> usize
        ensures same { result ≡ layer-size self }
        ensures few { result ≤ 23 }
    {
        match self {
            Edition::One => 22,
            Edition::Two => 23,
        }
    }
}
