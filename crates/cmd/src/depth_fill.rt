//! Depth fills (cmd.rs, DepthFill): whole depth buckets of one paint, and the two words that stand for one.
ghost use Rattle.std.specs.Prelude.{◌≡◌, ◌+◌, ◌*◌, ◌≤◌, length, option_map};
ghost use Rattle.rules.specs.Commands.{depth-words};
ghost use Rattle.span.specs.Spans.{buckets};
ghost use Rattle.cmd.specs.Commands.{Narrow};
ghost use Rattle.cmd.specs.DepthFills.{depth-fill, depth-words-of, depth_words_at, read-depth-words};

use crate::command::SpanWord;
use span::BucketRange;

/// Whole buckets of a row, with the place of their paint attribute. They are painted before the commands, from the last to the first.
#[derive(Clone, Copy, Debug, PartialEq, Eq)]
pub struct DepthFill {
    pub buckets: BucketRange,
    pub attrs_idx: u32,
}

/// Span word of buckets, first x 65,536 + end, and attribute, as they stand in a row.
#[derive(Clone, Copy, Debug, PartialEq, Eq)]
pub struct DepthWords {
    pub span: SpanWord,
    pub attrs_idx: u32,
}

impl DepthFill {
    /// The words of the depth fill.
    pub fn words(self) -> DepthWords
        requires { Narrow (buckets self.buckets) }
        ensures { depth-words-of result ≡ depth-words (depth-fill self) }
    {
        DepthWords {
            span: SpanWord::of(self.buckets.first, self.buckets.end),
            attrs_idx: self.attrs_idx,
        }
    }
}

impl DepthWords {
    /// The words at place k of a row's depth fills.
    pub fn at(depth_cmds: &[u32], k: usize) -> DepthWords
        requires { 2 * k + 2 ≤ length depth_cmds.now }
        ensures { result ≡ depth_words_at depth_cmds.now k }
    {
        let at = 2 * k;
        DepthWords {
            span: SpanWord(depth_cmds[at]),
            attrs_idx: depth_cmds[at + 1],
        }
    }

    /// The depth fill that the words stand for, in a row of `count` buckets, or none: its buckets are out of order or past the row.
    #[tactic(auto, unfolding(crate::specs::Reading::depth_fill_of))]
    pub fn read(self, count: u32) -> Option<DepthFill>
        ensures { option_map depth-fill result ≡ read-depth-words count self }
    {
        self.span.is_good(count).then_some(DepthFill {
            buckets: BucketRange {
                first: self.span.first(),
                end: self.span.end(),
            },
            attrs_idx: self.attrs_idx,
        })
    }
}
