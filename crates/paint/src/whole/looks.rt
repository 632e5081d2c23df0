//! What one look at a command's words shows. Parts: where a function asks something, its callers have judged it.
ghost use Rattle.std.specs.Prelude.{◌≡◌, true, List, ℕ, ◌+◌, ◌*◌, ◌/◌, ◌%◌, ◌≤◌, ◌<◌, IfSome, []};
ghost use Rattle.sizes.specs.Sizes.{tile-end, most-layers};
ghost use Rattle.rules.specs.Attributes.{Attrs};
ghost use Rattle.rules.specs.Spans.{span};
ghost use Rattle.rules.specs.Depth.{Summary, can_skip};
ghost use Rattle.paint.specs.Kinds.{summary-by, Fills, Gives};

use cmd::command::CmdWords;
use sizes::{MOST_LAYERS, TILE_ALPHAS, TILE_END};

/// A row's depth summary by its words: the first tile and the end of what its depth fills cover, and the largest of their ids.
#[derive(Clone, Copy, Debug, PartialEq, Eq)]
pub struct Hull {
    pub from: u32,
    pub to: u32,
    pub largest: u32,
}

impl Hull {
    /// By the summary alone, nothing hides the tiles.
    #[inline(always)]
    #[tactic(auto, unfolding(rules::specs::Depth::can_skip))]
    pub fn is_apart(self, first: u32, end: u32, id: u32) -> bool
        ensures { result ≡ can_skip (summary-by self.from self.to self.largest) (span first «end») id }
    {
        self.largest <= id || self.to <= first || end <= self.from
    }
}

/// The nesting after a buffer's words, if they begin or end one that can.
#[inline(always)]
pub fn level_after(words: CmdWords, nesting: u32) -> Option<u32>
    requires { nesting ≤ most-layers }
    ensures { (v : ℕ) (a : Attrs) (u : Summary) (D : List ℕ) → IfSome result (λ j. (j ≤ most-layers) × Gives v a u D nesting words 0 [] j) }
{
    if words.alpha != 0 || words.attrs_idx != 0 {
        return None;
    }
    if words.tag == 7 {
        if words.span.0 != 0 || nesting == 0 {
            return None;
        }
        return Some(nesting - 1);
    }
    if MOST_LAYERS <= nesting {
        return None;
    }
    if words.tag == 6 {
        if !words.span.is_good(TILE_END) {
            return None;
        }
    } else {
        if words.tag != 5 || words.span.0 != 0 {
            return None;
        }
    }
    Some(nesting + 1)
}

/// Whether a fill's words are in order, with a tile, and their span within so many tiles.
#[inline(always)]
pub fn is_fill(words: CmdWords, tiles: u32) -> bool
    requires { tiles ≤ tile-end }
    ensures { result ≡ true → Fills words × (words.span.0 / 65536 < words.span.0 % 65536) × (words.span.0 % 65536 ≤ tiles) }
{
    let first = words.span.first();
    let end = words.span.end();
    if end <= first || tiles < end {
        return false;
    }
    words.alpha == 0
        || (words.tag % 2 == 0 && words.alpha <= u32::MAX - TILE_ALPHAS * (end - first))
}
