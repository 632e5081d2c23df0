//! A row's runs as spans by value: found as tile numbers, then written as spans.
ghost use Rattle.std.specs.Prelude.{◌≡◌};
ghost use Rattle.sizes.specs.Sizes.{most-runs};
ghost use Rattle.rules.specs.Depth.{visible_answer};
ghost use Rattle.span.specs.Spans.{tiles};
ghost use Rattle.sizes.specs.Widths.{bucket-tiles};
ghost use Rattle.depth.specs.SpanLists.{listing, no_spans, visible_out};

use crate::forms::runs::runs_of;
use crate::visible_runs;
use sizes::MOST_RUNS;
use sizes::answers::Refusal;
use sizes::width::Width;
use span::TileSpan;

/// How many runs there are, and their spans; the spans after them are 0 to 0.
#[derive(Clone, Copy)]
pub struct Visible {
    pub count: usize,
    pub spans: [TileSpan; MOST_RUNS],
}

/// The runs of a span's tiles whose buckets hold at most the id. BadRun, 12, for no range; NoRoom, 14, where there are more than MOST_RUNS.
pub fn visible_spans(
    depth: &[u32],
    span: TileSpan,
    draw_id: u32,
    width: Width,
) -> Result<Visible, Refusal>
    ensures { visible_out result ≡ listing (visible_answer (bucket-tiles width) depth.now draw_id (tiles span) most-runs) no_spans }
{
    let mut words = [0u32; 2 * MOST_RUNS];
    let count = visible_runs(depth, span, draw_id, &mut words, width)?;
    Ok(Visible {
        count,
        spans: runs_of(&words, count),
    })
}
