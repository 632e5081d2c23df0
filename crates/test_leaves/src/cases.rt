//! The stored cases: what was asked, and what the original answered.
ghost use Rattle.std.specs.Prelude.{length};
ghost use Rattle.std.specs.Iterator.{at_most};
ghost use Rattle.test_leaves.specs.Words.{Passes};

use crate::words::Words;
use sizes::width::Width;
use span::{BucketRange, TileSpan};

/// What a lent list is filled with before a call, and what stands for the number of parts where a split is refused.
pub const MARK: u32 = 4294967295;

/// Which call of the leaves a case replays.
#[derive(Clone, Copy, PartialEq, Eq)]
pub enum Kind {
    Split,
    Unset,
    Visible,
    Writing,
    CanSkip,
}

/// Depth words, and runs as words, two a run.
#[derive(Clone, Copy)]
pub enum Case<'a> {
    // Parts of three words; none where it is refused, since the number of pixels is no width.
    Split {
        width: Option<Width>,
        tiles: TileSpan,
        parts: Option<&'a [u32]>,
    },
    Unset {
        width: Width,
        depth: &'a [u32],
        tiles: TileSpan,
        runs: &'a [u32],
    },
    Visible {
        width: Width,
        depth: &'a [u32],
        id: u32,
        tiles: TileSpan,
        runs: &'a [u32],
    },
    // `after`: the depth words afterwards.
    Writing {
        depth: &'a [u32],
        id: u32,
        buckets: BucketRange,
        runs: &'a [u32],
        after: &'a [u32],
    },
    // Depth fills of three words. 1 is due for yes, 0 for no.
    CanSkip {
        fills: &'a [u32],
        tiles: TileSpan,
        id: u32,
        due: u32,
    },
    // No case. Nothing is read after it, and it counts as one of every kind.
    Broken,
}

fn read_split<'a>(words: &mut Words<'a>) -> Option<Case<'a>>
    ensures { Passes words.old words.new }
{
    let pixels = words.word()?;
    let tiles = words.tiles()?;
    let n = words.word()?;
    let parts = if n == MARK {
        None
    } else {
        Some(words.records(n, 3)?)
    };
    Some(Case::Split {
        width: Width::try_from(pixels).ok(),
        tiles,
        parts,
    })
}

fn read_unset<'a>(words: &mut Words<'a>) -> Option<Case<'a>>
    ensures { Passes words.old words.new }
{
    let pixels = words.word()?;
    Some(Case::Unset {
        width: Width::try_from(pixels).ok()?,
        depth: words.counted(1)?,
        tiles: words.tiles()?,
        runs: words.counted(2)?,
    })
}

fn read_visible<'a>(words: &mut Words<'a>) -> Option<Case<'a>>
    ensures { Passes words.old words.new }
{
    let pixels = words.word()?;
    Some(Case::Visible {
        width: Width::try_from(pixels).ok()?,
        depth: words.counted(1)?,
        id: words.word()?,
        tiles: words.tiles()?,
        runs: words.counted(2)?,
    })
}

fn read_writing<'a>(words: &mut Words<'a>) -> Option<Case<'a>>
    ensures { Passes words.old words.new }
{
    let buckets_there = words.word()?;
    Some(Case::Writing {
        depth: words.records(buckets_there, 1)?,
        id: words.word()?,
        buckets: words.buckets()?,
        runs: words.counted(2)?,
        after: words.records(buckets_there, 1)?,
    })
}

fn read_can_skip<'a>(words: &mut Words<'a>) -> Option<Case<'a>>
    ensures { Passes words.old words.new }
{
    Some(Case::CanSkip {
        fills: words.counted(3)?,
        tiles: words.tiles()?,
        id: words.word()?,
        due: words.word()?,
    })
}

impl<'a> Case<'a> {
    // What stands after a kind, none if it is no case.
    fn read(kind: u32, words: &mut Words<'a>) -> Option<Case<'a>>
        ensures { Passes words.old words.new }
    {
        match kind {
            1 => read_split(words),
            2 => read_unset(words),
            3 => read_visible(words),
            4 => read_writing(words),
            5 => read_can_skip(words),
            _ => None,
        }
    }

    /// Whether the case replays this call.
    pub fn is_of(self, kind: Kind) -> bool {
        match self {
            Case::Split { .. } => kind == Kind::Split,
            Case::Unset { .. } => kind == Kind::Unset,
            Case::Visible { .. } => kind == Kind::Visible,
            Case::Writing { .. } => kind == Kind::Writing,
            Case::CanSkip { .. } => kind == Kind::CanSkip,
            Case::Broken => true,
        }
    }
}

/// All cases of a stored file.
#[derive(Drop)]
pub struct Cases<'a> {
    words: Words<'a>,
}

impl<'a> Cases<'a> {
    /// From the words of a file.
    pub fn new(words: &'a [u32]) -> Cases<'a> {
        Cases {
            words: Words { left: words },
        }
    }
}

impl<'a> Iterator for Cases<'a> {
    type Item = Case<'a>;

    ghost remaining = { λ cases. at_most (length cases.words.left.now) };

    fn next(&mut self) -> Option<Case<'a>> {
        let kind = self.words.word()?;
        match Case::read(kind, &mut self.words) {
            Some(case) => Some(case),
            None => {
                self.words.left = &[];
                Some(Case::Broken)
            }
        }
    }
}
