//! What a host's call leaves in its results: a refused call leaves them as they were.
ghost use Rattle.std.specs.Prelude.{◌≡◌, []};
ghost use Rattle.rules.specs.Answers.{answer};
ghost use Rattle.depth.specs.Answers.{parts_of, skip_of, split_of};
ghost use Rattle.depth.specs.Listing.{out};
ghost use Rattle.paint.specs.Answers.{painted_of};
ghost use Rattle.host.specs.Held.{painted_in, one, part, parts_in};
ghost use Rattle.host.specs.Results.{step-result, count_left, skip-left, three_words, split-left};

use depth::Split;
use paint::Stepped;
use sizes::answers::Refusal;
use span::{BucketRange, TileSpan};

/// What a painting call gives: 1 if no step of the row is left, else 0; how many pieces are listed. Laid out as in C.
#[repr(C)]
#[derive(Clone, Copy, Debug, PartialEq, Eq)]
pub struct PaintedWords {
    pub finished: u32,
    pub pieces: usize,
}

/// What a painting call gives, where it is not refused. It gives the number of the call, as all here do.
pub fn put_step(done: Result<Stepped, Refusal>, painted: &mut PaintedWords) -> u32
    ensures { answer result (painted_in painted.new) ≡ step-result (painted_in painted.old) (painted_of done) }
{
    match done {
        Ok(step) => {
            *painted = PaintedWords {
                finished: u32::from(step.finished),
                pieces: step.pieces,
            };
            0
        }
        Err(refusal) => refusal.number(),
    }
}

/// The number of runs, where they are not refused.
pub fn put_runs(runs: Result<usize, Refusal>, count: &mut usize) -> u32
    ensures { answer result (one count.new) ≡ count_left (one count.old) (out runs []) }
{
    match runs {
        Ok(n) => {
            *count = n;
            0
        }
        Err(refusal) => refusal.number(),
    }
}

/// 1 for yes and 0 for no, where it is not refused.
pub fn put_yes(asked: Result<bool, Refusal>, yes: &mut u32) -> u32
    ensures { answer result (one yes.new) ≡ skip-left (one yes.old) (skip_of asked) }
{
    match asked {
        Ok(told) => {
            *yes = u32::from(told);
            0
        }
        Err(refusal) => refusal.number(),
    }
}

/// A part of a split span: 1 for a regular piece or 2 for a depth fill, and where it begins and ends, in tiles or in buckets; all 0 for none. Laid out as in C.
#[repr(C)]
#[derive(Clone, Copy, Debug, PartialEq, Eq)]
pub struct PartWords {
    pub kind: u32,
    pub first: u32,
    pub end: u32,
}

/// The parts of a split span, left to right. Laid out as in C.
#[repr(C)]
#[derive(Clone, Copy, Debug, PartialEq, Eq)]
pub struct SplitWords {
    pub left: PartWords,
    pub middle: PartWords,
    pub right: PartWords,
}

// No part.
const NONE: PartWords = PartWords {
    kind: 0,
    first: 0,
    end: 0,
};

// A regular piece.
fn piece(s: TileSpan) -> PartWords
    ensures { result ≡ part 1 s.first s.end }
{
    PartWords {
        kind: 1,
        first: s.first,
        end: s.end,
    }
}

// A depth fill.
fn depth_fill(b: BucketRange) -> PartWords
    ensures { result ≡ part 2 b.first b.end }
{
    PartWords {
        kind: 2,
        first: b.first,
        end: b.end,
    }
}

// The parts of a split span.
#[tactic(auto, unfolding(crate::specs::Results::three_words))]
fn words_of(split: Split) -> SplitWords
    ensures { parts_in result ≡ three_words (parts_of split) }
{
    let (left, middle, right) = match split {
        Split::Whole(s) => (piece(s), NONE, NONE),
        Split::Opaque {
            before,
            buckets: b,
            after,
        } => match (before, after) {
            (None, None) => (depth_fill(b), NONE, NONE),
            (None, Some(t)) => (depth_fill(b), piece(t), NONE),
            (Some(s), None) => (piece(s), depth_fill(b), NONE),
            (Some(s), Some(t)) => (piece(s), depth_fill(b), piece(t)),
        },
    };
    SplitWords {
        left,
        middle,
        right,
    }
}

/// The parts, where the span is not refused.
pub fn put_split(parts: &mut SplitWords, split: Result<Split, Refusal>) -> u32
    ensures { answer result (parts_in parts.new) ≡ split-left (parts_in parts.old) (split_of split) }
{
    match split {
        Ok(split) => {
            *parts = words_of(split);
            0
        }
        Err(refusal) => refusal.number(),
    }
}
