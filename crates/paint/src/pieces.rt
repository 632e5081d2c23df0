//! Pieces, seven words each, and what a painting step leaves: pieces in the list, and one step more. Parts: where a function asks something, its callers have
//! judged it.
ghost use Rattle.std.specs.Prelude.{◌≡◌, Ok, [], ◌∷◌, map, ℕ, ◌+◌, ◌*◌, ◌-◌, ◌≤◌, ◌<◌, length};
ghost use Rattle.sizes.specs.Sizes.{piece-size};
ghost use Rattle.rules.specs.Spans.{Span, span};
ghost use Rattle.rules.specs.Depth.{tiles-of};
ghost use Rattle.span.specs.Spans.{Moves};
ghost use Rattle.cmd.specs.Attrs.{words-at};
ghost use Rattle.cmd.specs.Pieces.{words_of, piece-words, laid};
ghost use Rattle.paint.specs.Pieces.{brush-piece, Fits, run_at, runs-at};
ghost use Rattle.paint.specs.Answers.{word, painted_of, listed, advanced};
ghost use Rattle.paint.specs.Named.{CanStep};

use cmd::piece::{PieceWords, tag_of};
use sizes::PIECE;

/// What a step has painted. finished: no step was left. pieces: how many stand in the list.
#[derive(Clone, Copy, Debug, PartialEq, Eq)]
pub struct Stepped {
    pub finished: bool,
    pub pieces: usize,
}

/// A step is done: in the row's two words, one step more and the nesting after it; and so many pieces in the list.
#[tactic(auto, using(crate::proofs::Two::two_both))]
pub fn advance(painting: &mut [u32], nesting: u32, pieces: usize) -> Stepped
    requires { CanStep painting.old }
    ensures { advanced (painted_of (Ok result)) painting.new ≡ advanced (listed pieces) ((word painting.old 0 + 1) ∷ nesting ∷ []) }
{
    painting[0] += 1;
    painting[1] = nesting;
    Stepped {
        finished: false,
        pieces,
    }
}

/// What the pieces of one step have in common. `first` is the tile that the alpha index belongs to.
#[derive(Clone, Copy, Debug, PartialEq, Eq)]
pub struct Brush {
    pub layer: bool,
    pub attrs_idx: u32,
    pub first: u32,
    pub alpha: Option<u32>,
    pub nesting: u32,
    pub panel: u32,
}

impl Brush {
    // The piece over the tiles a to b.
    fn piece(self, a: u32, b: u32) -> PieceWords
        requires begun { self.first ≤ a }
        requires moves { Moves self.alpha (a - self.first) }
        ensures { words_of result ≡ piece-words (brush-piece self (span a b)) }
    {
        let alpha = span::moved(self.alpha, a - self.first);
        PieceWords {
            tag: tag_of(self.layer, alpha),
            attrs_idx: self.attrs_idx,
            first: a,
            end: b,
            alpha: alpha.unwrap_or(0),
            nesting: self.nesting,
            panel: self.panel,
        }
    }
}

/// The n runs at the list's start, two words each, in units of `width` tiles, become n pieces in their place, from the last to the first.
pub fn spread(list: &mut [u32], n: usize, width: u32, brush: Brush)
    requires room { piece-size * n ≤ length list.old }
    requires runs { (k : ℕ) → k < n → Fits width brush (run_at list.old k) }
    ensures { list.new ≡ laid (map (λ (r : Span). brush-piece brush (tiles-of width r)) (runs-at n list.old)) list.old }
{
    let mut left = n;
    while 0 < left {
        let k = left - 1;
        let piece = brush.piece(list[2 * k] * width, list[2 * k + 1] * width);
        piece.put(list, k);
        left = k;
    }
}
