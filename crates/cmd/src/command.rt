//! Render commands (cmd.rs, RenderCmd), and the four words that stand for one.
ghost use Rattle.std.specs.Prelude.{◌≡◌, ◌&&◌, ◌+◌, ◌*◌, ◌/◌, ◌%◌, ◌<◌, ◌≤◌, eqb, length, min, max, option_map};
ghost use Rattle.sizes.specs.Sizes.{tile-end};
ghost use Rattle.rules.specs.Spans.{span};
ghost use Rattle.rules.specs.Commands.{span-word, fill-words, push-words, command_words};
ghost use Rattle.cmd.specs.Reading.{word-span, good-span-word, good-alpha};
ghost use Rattle.span.specs.Spans.{tiles};
ghost use Rattle.cmd.specs.Commands.{command, words_of, read-words, fill-of, cmd_at, put4, Narrow, NarrowPush, NarrowCmd};

use sizes::{TILE_ALPHAS, TILE_END};
use span::TileSpan;

/// A span in one word: two numbers below 65,536, of tiles or of buckets, the first x 65,536 + the end.
#[derive(Clone, Copy, Debug, PartialEq, Eq)]
pub struct SpanWord(pub u32);

// The numbers that half a word can hold.
const HALF_WORD: u32 = 65536;

impl SpanWord {
    /// The word of two numbers.
    pub fn of(first: u32, end: u32) -> SpanWord
        requires { Narrow (span first «end») }
        ensures { result.0 ≡ span-word (span first «end») }
    {
        SpanWord(first * HALF_WORD + end)
    }

    /// The first number.
    pub fn first(self) -> u32
        ensures { result ≡ self.0 / 65536 }
    {
        self.0 / HALF_WORD
    }

    /// The end.
    pub fn end(self) -> u32
        ensures { result ≡ self.0 % 65536 }
    {
        self.0 % HALF_WORD
    }

    /// The least span that holds this one and that of two numbers more.
    pub fn union(self, first: u32, end: u32) -> SpanWord
        requires { Narrow (span first «end») }
        ensures { result.0 ≡ span-word (span (min (self.0 / 65536) first) (max (self.0 % 65536) «end»)) }
    {
        SpanWord((self.0 / HALF_WORD).min(first) * HALF_WORD + (self.0 % HALF_WORD).max(end))
    }

    /// Whether the two numbers are in order and the end is at most the limit.
    pub fn is_good(self, limit: u32) -> bool
        ensures { result ≡ good-span-word limit self.0 }
    {
        self.first() <= self.end() && self.end() <= limit
    }
}

/// A span of a row's tiles, the alpha index of its first tile, if it has one, and the place of its attribute (cmd.rs, PaintFill and LayerFill).
#[derive(Clone, Copy, Debug, PartialEq, Eq)]
pub struct Fill {
    pub span: TileSpan,
    pub alpha: Option<u32>,
    pub attrs_idx: u32,
}

/// A command of a row. `PaintFill` has a paint's attribute, `LayerFill` a layer's.
#[derive(Clone, Copy, Debug, PartialEq, Eq)]
pub enum RenderCmd {
    PaintFill(Fill),
    LayerFill(Fill),
    // A buffer begins: with the union of the fills at its own level, which it gets at its PopBuf, if there are any (rule 10).
    PushBuf(Option<TileSpan>),
    // The innermost buffer ends.
    PopBuf,
}

/// Tag (1 and 2 PaintFill solid and alpha, 3 and 4 LayerFill, 5 and 6 PushBuf without and with a span, 7 PopBuf), span word, alpha index and attribute, as they
/// stand in a row. Unused words are 0.
#[derive(Clone, Copy, Debug, PartialEq, Eq)]
pub struct CmdWords {
    pub tag: u32,
    pub span: SpanWord,
    pub alpha: u32,
    pub attrs_idx: u32,
}

impl Fill {
    // The words of a fill, `tag` being that of a solid one; with alpha it is one more.
    fn words(self, tag: u32) -> CmdWords
        requires { Narrow (tiles self.span) × (tag ≤ 3) }
        ensures { words_of result ≡ fill-words tag (tiles self.span) self.alpha self.attrs_idx }
    {
        let span = SpanWord::of(self.span.first, self.span.end);
        match self.alpha {
            None => CmdWords {
                tag,
                span,
                alpha: 0,
                attrs_idx: self.attrs_idx,
            },
            Some(alpha) => CmdWords {
                tag: tag + 1,
                span,
                alpha,
                attrs_idx: self.attrs_idx,
            },
        }
    }
}

// The words of a buffer's push.
fn push_words(recorded: Option<TileSpan>) -> CmdWords
    requires { NarrowPush recorded }
    ensures { words_of result ≡ push-words (option_map tiles recorded) }
{
    match recorded {
        None => CmdWords {
            tag: 5,
            span: SpanWord(0),
            alpha: 0,
            attrs_idx: 0,
        },
        Some(tiles) => CmdWords {
            tag: 6,
            span: SpanWord::of(tiles.first, tiles.end),
            alpha: 0,
            attrs_idx: 0,
        },
    }
}

impl RenderCmd {
    /// The words of the command.
    #[tactic(auto, unfolding(rules::specs::Commands::command_words))]
    pub fn words(self) -> CmdWords
        requires { NarrowCmd self }
        ensures { words_of result ≡ command_words (command self) }
    {
        match self {
            RenderCmd::PaintFill(fill) => fill.words(1),
            RenderCmd::LayerFill(fill) => fill.words(3),
            RenderCmd::PushBuf(recorded) => push_words(recorded),
            RenderCmd::PopBuf => CmdWords {
                tag: 7,
                span: SpanWord(0),
                alpha: 0,
                attrs_idx: 0,
            },
        }
    }
}

impl CmdWords {
    /// The words at place k of a row's commands.
    pub fn at(render_cmds: &[u32], k: usize) -> CmdWords
        requires { 4 * k + 4 ≤ length render_cmds.now }
        ensures { result ≡ cmd_at render_cmds.now k }
    {
        let at = 4 * k;
        CmdWords {
            tag: render_cmds[at],
            span: SpanWord(render_cmds[at + 1]),
            alpha: render_cmds[at + 2],
            attrs_idx: render_cmds[at + 3],
        }
    }

    /// Written at place k of a row's commands.
    pub fn put(self, render_cmds: &mut [u32], k: usize)
        requires { 4 * k + 4 ≤ length render_cmds.old }
        ensures { render_cmds.new ≡ put4 render_cmds.old k self.tag self.span.0 self.alpha self.attrs_idx }
    {
        let at = 4 * k;
        render_cmds[at] = self.tag;
        render_cmds[at + 1] = self.span.0;
        render_cmds[at + 2] = self.alpha;
        render_cmds[at + 3] = self.attrs_idx;
    }

    // A span up to tile 8,192, and no alpha index.
    fn is_solid(self) -> bool
        ensures { result ≡ (good-span-word tile-end self.span.0 && eqb self.alpha 0) }
    {
        self.span.is_good(TILE_END) && self.alpha == 0
    }

    // Such a span, and an alpha index that can be moved over all of it.
    fn is_alpha(self) -> bool
        ensures { result ≡ (good-span-word tile-end self.span.0 && good-alpha self.alpha self.span.0) }
    {
        self.span.is_good(TILE_END)
            && self
                .alpha
                .checked_add(TILE_ALPHAS * (self.span.end() - self.span.first()))
                .is_some()
    }

    // Nothing but the tag.
    fn is_bare(self) -> bool
        ensures { result ≡ (eqb self.span.0 0 && eqb self.alpha 0 && eqb self.attrs_idx 0) }
    {
        self.span.0 == 0 && self.alpha == 0 && self.attrs_idx == 0
    }

    // The fill of such words.
    fn fill(self, alpha: Option<u32>) -> Fill
        ensures { result ≡ fill-of self alpha }
    {
        Fill {
            span: self.tiles(),
            alpha,
            attrs_idx: self.attrs_idx,
        }
    }

    // The span of the span word.
    fn tiles(self) -> TileSpan
        ensures { tiles result ≡ word-span self.span.0 }
    {
        TileSpan {
            first: self.span.first(),
            end: self.span.end(),
        }
    }

    /// The command that the words stand for, or none: an unknown tag, a span past tile 8,192, an alpha index that cannot be moved over it, or an unused word
    /// that is not 0.
    #[tactic(auto, unfolding(crate::specs::Reading::command_of))]
    #[inline(always)]
    pub fn read(self) -> Option<RenderCmd>
        ensures { option_map command result ≡ read-words self }
    {
        match self.tag {
            1 => self
                .is_solid()
                .then_some(RenderCmd::PaintFill(self.fill(None))),
            2 => self
                .is_alpha()
                .then_some(RenderCmd::PaintFill(self.fill(Some(self.alpha)))),
            3 => self
                .is_solid()
                .then_some(RenderCmd::LayerFill(self.fill(None))),
            4 => self
                .is_alpha()
                .then_some(RenderCmd::LayerFill(self.fill(Some(self.alpha)))),
            5 => self.is_bare().then_some(RenderCmd::PushBuf(None)),
            6 => (self.is_solid() && self.attrs_idx == 0).then_some(RenderCmd::PushBuf(Some(
                self.tiles(),
            ))),
            7 => self.is_bare().then_some(RenderCmd::PopBuf),
            _ => None,
        }
    }
}
