//! Whether a fill is hidden.
ghost use Rattle.std.specs.Prelude.{◌≡◌, ◌≤◌};
ghost use Rattle.sizes.specs.Sizes.{tile-end};
ghost use Rattle.sizes.specs.Widths.{bucket-tiles};
ghost use Rattle.rules.specs.Lists.{is-empty};
ghost use Rattle.rules.specs.Depth.{visible-runs};
ghost use Rattle.span.specs.Spans.{tiles};

use depth::visible_runs;
use sizes::width::Width;
use span::TileSpan;

/// Whether no tile of the span is visible for the id: each bucket that the span meets on the row holds a greater one, `ids` being the row's newest ids. One of
/// width 0 is hidden.
pub fn is_hidden(ids: &[u32], span: TileSpan, id: u32, width: Width) -> bool
    requires { (span.first ≤ span.«end») × (span.«end» ≤ tile-end) }
    ensures { result ≡ is-empty (visible-runs (bucket-tiles width) ids.now id (tiles span)) }
{
    // A list with no room is refused exactly where there is a run.
    visible_runs(ids, span, id, &mut [], width).is_ok()
}
