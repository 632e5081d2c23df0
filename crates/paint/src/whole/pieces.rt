//! The pieces of a fill, a run each, in a list. Parts: where a function asks something, its callers have judged it.
ghost use Rattle.std.specs.Prelude.{◌≡◌, ◌+◌, ◌-◌, ◌*◌, ◌/◌, ◌%◌, ◌≤◌, ◌<◌, length, leb};
ghost use Rattle.sizes.specs.Sizes.{tile-alphas, piece-size};
ghost use Rattle.rules.specs.Lists.{join};
ghost use Rattle.rules.specs.Spans.{span};
ghost use Rattle.cmd.specs.Attrs.{words-at};
ghost use Rattle.cmd.specs.Pieces.{words_of};
ghost use Rattle.paint.specs.Scales.{tiles_in};
ghost use Rattle.paint.specs.Kinds.{low-met, high-met, moved-index, whole_words};
ghost use Rattle.paint.specs.Cuts.{FillsCut, MeetsCut, end_met, cut_words, met};

use crate::command::Mark;
use crate::whole::scale::Scale;
use cmd::command::{CmdWords, SpanWord};
use cmd::piece::PieceWords;
use depth::search::{Run, next_run};
use sizes::{PIECE, TILE_ALPHAS};

/// A list of pieces that is lent, of which the first `at` words are written: PIECE words a piece.
#[derive(Drop)]
pub struct Pieces<'a> {
    pub list: &'a mut [u32],
    pub at: usize,
    ghost few: { at ≤ length list.now },
    ghost whole: { piece-size * (at / piece-size) ≡ at },
}

impl<'a> Pieces<'a> {
    /// A list of which nothing is written.
    #[inline(always)]
    pub fn new(list: &'a mut [u32]) -> Pieces<'a>
        ensures same { result.list.ghost_name ≡ list.entry.ghost_name }
        ensures list { result.list.now ≡ list.old }
        ensures at { result.at ≡ 0 }
    {
        Pieces { list, at: 0 }
    }

    /// How many pieces are written.
    #[inline(always)]
    pub fn count(&self) -> usize
        ensures { result ≡ self.now.at / piece-size }
    {
        self.at / PIECE
    }

    /// Whether so many words more fit.
    #[inline(always)]
    pub fn has_room(&self, words: usize) -> bool
        requires { words < 68719476736 }
        ensures { result ≡ leb (self.now.at + words) (length self.now.list.now) }
    {
        self.at + words <= self.list.len()
    }

    /// One piece more.
    #[inline(always)]
    pub fn push(&mut self, piece: PieceWords)
        requires { self.old.at + piece-size ≤ length self.old.list.now }
        ensures same { self.new.list.ghost_name ≡ self.old.list.ghost_name }
        ensures list { self.new.list.now ≡ words-at self.old.list.now self.old.at (words_of piece) }
        ensures at { self.new.at ≡ self.old.at + piece-size }
    {
        let at = self.at;
        self.list[at] = piece.tag;
        self.list[at + 1] = piece.attrs_idx;
        self.list[at + 2] = piece.first;
        self.list[at + 3] = piece.end;
        self.list[at + 4] = piece.alpha;
        self.list[at + 5] = piece.nesting;
        self.list[at + 6] = piece.panel;
        self.at = at + PIECE;
    }
}

/// A fill that becomes pieces: its words, the nesting, what its attribute says, and how wide a bucket is.
#[derive(Clone, Copy, Debug, PartialEq, Eq)]
pub struct Cut {
    pub words: CmdWords,
    pub nesting: u32,
    pub mark: Mark,
    pub scale: Scale,
}

// The alpha index of a fill's tile, so many tiles after its first. A solid fill has none.
#[inline(always)]
fn moved_index(tag: u32, alpha: u32, tiles: u32) -> u32
    requires { alpha + tile-alphas * tiles < 4294967296 }
    ensures { result ≡ moved-index tag alpha tiles }
{
    if tag % 2 == 1 {
        return alpha;
    }
    alpha + TILE_ALPHAS * tiles
}

impl Cut {
    /// The fill, all of it.
    #[inline(always)]
    pub fn whole(self) -> PieceWords
        ensures { words_of result ≡ whole_words self.words self.nesting self.mark.panel }
    {
        PieceWords {
            tag: self.words.tag,
            attrs_idx: self.words.attrs_idx,
            first: self.words.span.first(),
            end: self.words.span.end(),
            alpha: self.words.alpha,
            nesting: self.nesting,
            panel: self.mark.panel,
        }
    }

    // The buckets of a run, cut to the fill's tiles.
    #[inline(always)]
    fn piece(self, run: Run) -> PieceWords
        requires good { FillsCut self }
        requires first { run.first < end_met self }
        requires within { run.«end» ≤ end_met self }
        ensures { words_of result ≡ cut_words self (span run.first run.«end») }
    {
        let first = self.words.span.first();
        let from = first.max(self.scale.times(run.first as u32));
        let end = self.words.span.end().min(self.scale.times(run.end as u32));
        PieceWords {
            tag: self.words.tag,
            attrs_idx: self.words.attrs_idx,
            first: from,
            end,
            alpha: moved_index(self.words.tag, self.words.alpha, from - first),
            nesting: self.nesting,
            panel: self.mark.panel,
        }
    }
}

/// The runs of a fill's buckets that are shown become pieces.
#[inline(always)]
pub fn put_fill(depth: &[u32], cut: Cut, pieces: &mut Pieces<'_>)
    requires good { FillsCut cut }
    requires meets { MeetsCut cut depth.now }
    requires room { pieces.old.at + piece-size * length (met cut depth.now) ≤ length pieces.old.list.now }
    ensures same { pieces.new.list.ghost_name ≡ pieces.old.list.ghost_name }
    ensures at { pieces.new.at ≡ pieces.old.at + piece-size * length (met cut depth.now) }
    ensures list { pieces.new.list.now ≡ words-at pieces.old.list.now pieces.old.at (join (cut_words cut) (met cut depth.now)) }
{
    let end = cut.scale.above(cut.words.span.end()) as usize;
    let mut from = cut.scale.below(cut.words.span.first()) as usize;
    while let Some(run) = next_run(depth, from, end, cut.mark.id) {
        pieces.push(cut.piece(run));
        from = run.end + 1;
    }
}

/// How many runs the buckets that a fill meets have at most.
#[inline(always)]
pub fn most_runs(tiles: SpanWord, scale: Scale) -> usize
    requires { tiles.0 / 65536 < tiles.0 % 65536 }
    ensures { result ≡ (high-met (tiles_in scale) tiles.0 - low-met (tiles_in scale) tiles.0 + 1) / 2 }
{
    let a = scale.below(tiles.first()) as usize;
    let e = scale.above(tiles.end()) as usize;
    (e - a + 1) / 2
}
