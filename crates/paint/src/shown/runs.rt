//! The runs of a fill that are shown. `shown_runs` is a part: its callers have judged the span.
ghost use Rattle.std.specs.Prelude.{◌≡◌, false, ◌/◌, ◌≤◌, length};
ghost use Rattle.sizes.specs.Sizes.{tile-end};
ghost use Rattle.rules.specs.Depth.{listed};
ghost use Rattle.span.specs.Spans.{tiles};
ghost use Rattle.sizes.specs.Widths.{bucket-tiles};
ghost use Rattle.depth.specs.Answers.{summary};
ghost use Rattle.depth.specs.Listing.{out, listing};
ghost use Rattle.paint.specs.Summaries.{whole_run, is_clear, shown_runs};

use depth::{DepthState, visible_runs};
use sizes::answers::Refusal;
use sizes::width::Width;
use span::TileSpan;

// Whether the summary of a row of so many buckets says that nothing hides the span, and the span ends within them.
#[tactic(auto, using(crate::proofs::Clear::skip_said))]
fn is_clear(sum: DepthState, span: TileSpan, id: u32, buckets: usize, width: Width) -> bool
    requires order { span.first ≤ span.«end» }
    requires short { span.«end» ≤ tile-end }
    requires few { buckets ≤ 65535 }
    ensures { result ≡ is_clear (bucket-tiles width) (summary sum) buckets id (tiles span) }
{
    sum.can_skip(span, id).unwrap_or(false) && span.end as usize <= width.tiles() as usize * buckets
}

// The span as its one run, none where it has width 0; NoRoom, 14.
#[tactic(auto, using(crate::proofs::Clear::whole_none, crate::proofs::Clear::whole_short, crate::proofs::Clear::whole_one))]
fn list_whole(span: TileSpan, list: &mut [u32]) -> Result<usize, Refusal>
    ensures { out result list.new ≡ listing (listed false (length list.old / 2) (whole_run (tiles span))) list.old }
{
    if span.end <= span.first {
        return Ok(0);
    }
    if list.len() < 2 {
        return Err(Refusal::NoRoom);
    }
    list[0] = span.first;
    list[1] = span.end;
    Ok(1)
}

/// The runs of a fill's tiles that are shown for an id; how many. The span is listed whole where the summary says so: only else are the depth words searched.
/// NoRoom, 14.
#[tactic(auto, using(crate::proofs::Clear::shown_whole, crate::proofs::Clear::shown_searched))]
pub fn shown_runs(
    depth: &[u32],
    sum: DepthState,
    span: TileSpan,
    id: u32,
    list: &mut [u32],
    width: Width,
) -> Result<usize, Refusal>
    requires order { span.first ≤ span.«end» }
    requires short { span.«end» ≤ tile-end }
    requires few { length depth.now ≤ 65535 }
    ensures { out result list.new
        ≡ listing (listed false (length list.old / 2) (shown_runs (bucket-tiles width) (summary sum) depth.now id (tiles span))) list.old }
{
    if is_clear(sum, span, id, depth.len(), width) {
        return list_whole(span, list);
    }
    visible_runs(depth, span, id, list, width)
}
