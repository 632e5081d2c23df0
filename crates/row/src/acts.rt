//! What a step does to one row (bucketer.rs). Parts: each has a `requires`, which its callers have judged. `n` is the number of open layers. What a pop does is
//! `Row::pop_buf`.
ghost use Rattle.std.specs.Prelude.{◌≡◌, ◌≤◌, true};
ghost use Rattle.sizes.specs.Sizes.{most-layers};
ghost use Rattle.rules.specs.Commands.{paint-fill, layer-fill};
ghost use Rattle.span.specs.Spans.{tiles};
ghost use Rattle.sizes.specs.Widths.{bucket-tiles};
ghost use Rattle.row.specs.Words.{Room};
ghost use Rattle.row.specs.Row.{held, Same};
ghost use Rattle.row.specs.Cmds.{Short};
ghost use Rattle.row.specs.Acts.{ensured, parted, ShortEdge, edged, unsplit, drawn};

use crate::words::Row;
use cmd::depth_fill::DepthFill;
use depth::{Split, split_opaque_span};
use sizes::LEVELS;
use sizes::width::Width;
use span::{Stretch, TileSpan};

/// Rule 5 (bucketer.rs, ensure_row_layers): a PushBuf for each open layer that the row lacks. A destructive push does this alone (rule 8).
#[tactic(auto, using(crate::proofs::ActsLaws::layers_room, crate::proofs::ActsLaws::layers_again))]
pub fn ensure_row_layers(row: &mut Row<'_>, n: u32)
    requires { (n ≤ most-layers) × Room (held row.old) (ensured n (held row.old)) }
    ensures same { Same row.old row.new }
    ensures row { held row.new ≡ ensured n (held row.old) }
{
    let mut k = row.state[LEVELS];
    while k < n {
        row.push_buf();
        k += 1;
    }
}

// Rule 7: the regular piece on one side of a depth fill, where there is one.
fn push_edge(row: &mut Row<'_>, edge: Option<TileSpan>, attrs_idx: u32)
    requires { ShortEdge edge × Room (held row.old) (edged edge attrs_idx (held row.old)) }
    ensures same { Same row.old row.new }
    ensures row { held row.new ≡ edged edge attrs_idx (held row.old) }
{
    if let Some(span) = edge {
        row.push_paint(span, None, attrs_idx);
    }
}

// Rule 7: an eligible span, split over buckets. No caller has a span that starts after its end; it would stay whole.
#[tactic(auto, using(crate::proofs::ActsLaws::whole_is))]
fn push_opaque<const WAY: u32>(
    row: &mut Row<'_>,
    span: TileSpan,
    attrs_idx: u32,
    draw_id: u32,
    width: Width,
)
    requires short { Short (tiles span) }
    requires room { Room (held row.old) (parted (bucket-tiles width) attrs_idx draw_id (tiles span) (held row.old)) }
    ensures same { Same row.old row.new }
    ensures row { held row.new ≡ parted (bucket-tiles width) attrs_idx draw_id (tiles span) (held row.old) }
{
    let Ok(split) = split_opaque_span(span, width) else {
        row.push_paint(span, None, attrs_idx);
        return;
    };
    match split {
        Split::Whole(whole) => row.push_paint(whole, None, attrs_idx),
        Split::Opaque {
            before,
            buckets,
            after,
        } => {
            push_edge(row, before, attrs_idx);
            row.push_depth_fill(DepthFill { buckets, attrs_idx }, draw_id, width);
            push_edge(row, after, attrs_idx);
        }
    }
}

/// Rule 6: whether one command comes of what is left of a segment, since it has alpha or the draw is not eligible.
pub fn is_unsplit(eligible: bool, alpha: Option<u32>) -> bool
    ensures { result ≡ unsplit eligible alpha }
{
    alpha.is_some() || !eligible
}

/// Rules 5 to 7 (bucketer.rs, push_fill): what is left of a segment, on its row. SPLIT is rule 6's, for the whole draw: eligible, so that no layer is open;
/// tiles are the screen's. WAY changes nothing of what is done: each way of a fill has machine code of its own (`fill`).
#[tactic(auto, using(crate::proofs::ActsLaws::first_room, crate::proofs::ActsLaws::one_done, crate::proofs::ActsLaws::parts_done))]
pub fn push_fill<const WAY: u32, const SPLIT: bool>(
    row: &mut Row<'_>,
    n: u32,
    stretch: Stretch,
    attrs_idx: u32,
    draw_id: u32,
    width: Width,
)
    requires short { Short (tiles stretch.tiles) }
    requires layers { n ≤ most-layers }
    requires none { SPLIT ≡ true → n ≡ 0 }
    requires room { Room (held row.old) (drawn (bucket-tiles width) n SPLIT (tiles stretch.tiles) stretch.alpha attrs_idx draw_id (held row.old)) }
    ensures same { Same row.old row.new }
    ensures row { held row.new ≡ drawn (bucket-tiles width) n SPLIT (tiles stretch.tiles) stretch.alpha attrs_idx draw_id (held row.old) }
{
    if SPLIT {
        if is_unsplit(SPLIT, stretch.alpha) {
            row.push_paint(stretch.tiles, stretch.alpha, attrs_idx);
        } else {
            push_opaque::<WAY>(row, stretch.tiles, attrs_idx, draw_id, width);
        }
        return;
    }
    ensure_row_layers(row, n);
    row.push_paint(stretch.tiles, stretch.alpha, attrs_idx);
}
