//! Words that are read one after another, none past the end.
ghost use Rattle.std.specs.Prelude.{◌<◌, ◌≤◌, length, IfSome};
ghost use Rattle.test_leaves.specs.Words.{Passes};

use span::{BucketRange, TileSpan};

/// Those that are left.
#[derive(Clone, Copy)]
pub struct Words<'a> {
    pub left: &'a [u32],
}

impl<'a> Words<'a> {
    /// The next word, if there is one.
    pub fn word(&mut self) -> Option<u32>
        ensures passes { Passes self.old self.new }
        ensures one_less { IfSome result (λ _. length self.new.left.now < length self.old.left.now) }
    {
        let (first, left) = self.left.split_first()?;
        self.left = left;
        Some(*first)
    }

    /// Two words: a span, in tiles.
    pub fn tiles(&mut self) -> Option<TileSpan>
        ensures { Passes self.old self.new }
    {
        let first = self.word()?;
        let end = self.word()?;
        Some(TileSpan { first, end })
    }

    /// Two words: a range, in buckets.
    pub fn buckets(&mut self) -> Option<BucketRange>
        ensures { Passes self.old self.new }
    {
        let first = self.word()?;
        let end = self.word()?;
        Some(BucketRange { first, end })
    }

    /// n records of so many words each.
    pub fn records(&mut self, n: u32, size: usize) -> Option<&'a [u32]>
        requires { size ≤ 3 }
        ensures { Passes self.old self.new }
    {
        let (records, left) = self.left.split_at_checked(n as usize * size)?;
        self.left = left;
        Some(records)
    }

    /// The same, after their number.
    pub fn counted(&mut self, size: usize) -> Option<&'a [u32]>
        requires { size ≤ 3 }
        ensures { Passes self.old self.new }
    {
        let n = self.word()?;
        self.records(n, size)
    }
}
