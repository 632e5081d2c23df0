//! Painted pieces as they stand in a list, PIECE words each. Parts: what a function asks, its callers have judged.
ghost use Rattle.std.specs.Prelude.{◌≡◌, ◌+◌, ◌*◌, ◌≤◌, length};
ghost use Rattle.sizes.specs.Sizes.{piece-size};
ghost use Rattle.cmd.specs.Attrs.{words-at};
ghost use Rattle.cmd.specs.Pieces.{tag-of, words_of};

use sizes::PIECE;

/// A piece as it stands in a list. `tag`: 1 and 2 paint, solid and alpha, 3 and 4 layer; tiles from `first` to `end`; `alpha`: its alpha index, or 0.
/// `nesting`: how many buffers are open.
#[derive(Clone, Copy, Debug, PartialEq, Eq)]
pub struct PieceWords {
    pub tag: u32,
    pub attrs_idx: u32,
    pub first: u32,
    pub end: u32,
    pub alpha: u32,
    pub nesting: u32,
    pub panel: u32,
}

impl PieceWords {
    /// Written as piece k of the list.
    pub fn put(self, list: &mut [u32], k: usize)
        requires { piece-size * k + piece-size ≤ length list.old }
        ensures { list.new ≡ words-at list.old (piece-size * k) (words_of self) }
    {
        let at = PIECE * k;
        list[at] = self.tag;
        list[at + 1] = self.attrs_idx;
        list[at + 2] = self.first;
        list[at + 3] = self.end;
        list[at + 4] = self.alpha;
        list[at + 5] = self.nesting;
        list[at + 6] = self.panel;
    }
}

/// Paint or layer, solid or alpha, as a tag.
pub fn tag_of(layer: bool, alpha: Option<u32>) -> u32
    ensures { result ≡ tag-of layer alpha }
{
    match (layer, alpha) {
        (false, None) => 1,
        (false, Some(_)) => 2,
        (true, None) => 3,
        (true, Some(_)) => 4,
    }
}
