//! Words that are read one after another.
ghost use Rattle.std.specs.Prelude.{◌≤◌, ◌<◌, length, IfSome};
ghost use Rattle.test_calls.specs.Words.{Passes};

use cmd::blend::Blend;
use rect::Rect;
use span::{BucketRange, TileSpan};

/// The word at a place, 0 past the end.
pub fn word_at(words: &[u32], at: usize) -> u32 {
    words.get(at).copied().unwrap_or(0)
}

/// Those that are left. Past the last one a word is 0, and a list is as long as there are words.
#[derive(Clone, Copy)]
pub struct Words<'a> {
    pub left: &'a [u32],
}

impl<'a> Words<'a> {
    /// The next word, if there is one.
    pub fn try_word(&mut self) -> Option<u32>
        ensures passes { Passes self.old self.new }
        ensures one_less { IfSome result (λ _. length self.new.left.now < length self.old.left.now) }
    {
        let (first, left) = self.left.split_first()?;
        self.left = left;
        Some(*first)
    }

    /// The next word, 0 past the end.
    pub fn word(&mut self) -> u32
        ensures { Passes self.old self.new }
    {
        self.try_word().unwrap_or(0)
    }

    /// The next word as a place or a count.
    pub fn index(&mut self) -> usize
        ensures { Passes self.old self.new }
    {
        self.word() as usize
    }

    /// A choice, which 0 declines.
    pub fn flag(&mut self) -> bool
        ensures { Passes self.old self.new }
    {
        self.word() != 0
    }

    /// Records of so many words each, after their number.
    pub fn records(&mut self, size: usize) -> &'a [u32]
        requires { size ≤ 5 }
        ensures { Passes self.old self.new }
    {
        let n = size * self.word() as usize;
        let (records, left) = self.left.split_at(n.min(self.left.len()));
        self.left = left;
        records
    }

    /// Four words: a box, in pixels.
    pub fn rect(&mut self) -> Rect
        ensures { Passes self.old self.new }
    {
        Rect {
            x0: self.word(),
            y0: self.word(),
            x1: self.word(),
            y1: self.word(),
        }
    }

    /// Two words: a span, in tiles.
    pub fn tiles(&mut self) -> TileSpan
        ensures { Passes self.old self.new }
    {
        TileSpan {
            first: self.word(),
            end: self.word(),
        }
    }

    /// Two words: a range, in buckets.
    pub fn buckets(&mut self) -> BucketRange
        ensures { Passes self.old self.new }
    {
        BucketRange {
            first: self.word(),
            end: self.word(),
        }
    }

    /// Two words: mix and compose.
    pub fn blend(&mut self) -> Blend
        ensures { Passes self.old self.new }
    {
        Blend {
            mix: self.word(),
            compose: self.word(),
        }
    }
}
