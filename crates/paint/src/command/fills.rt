//! The doing halves of a step: the runs of a judged fill become pieces at the list's start, and the row's steps go up by one.
ghost use Rattle.std.specs.Prelude.{◌≡◌, Some, false, ◌-◌, ◌/◌, ◌≤◌, ◌<◌, length};
ghost use Rattle.rules.specs.Depth.{listed};
ghost use Rattle.rules.specs.Minima.{minima-room};
ghost use Rattle.depth.specs.Listing.{out, listing};
ghost use Rattle.sizes.specs.Sizes.{tile-end};
ghost use Rattle.span.specs.Spans.{tiles, buckets, Moves};
ghost use Rattle.sizes.specs.Widths.{bucket-tiles};
ghost use Rattle.paint.specs.Answers.{painted_of};
ghost use Rattle.paint.specs.Painting.{settled};
ghost use Rattle.paint.specs.Named.{CanStep, SameRow, shown_in, row_out, own-depths, depth_painted, depth_minima, fill_painted};

use crate::canvas::rows::write_part;
use crate::canvas::stored::RowWords;
use crate::command::marks::Mark;
use crate::command::reading::StoredRow;
use crate::pieces::{Brush, Stepped, advance, spread};
use crate::shown::{shown_runs, summary_of};
use cmd::command::Fill;
use cmd::depth_fill::DepthFill;
use sizes::PIECE;
use sizes::answers::Refusal;
use sizes::width::Width;
use span::TileSpan;

/// A depth fill gives its unset runs, whole buckets, and writes its id there. NoRoom, 14, where the list has no room for its pieces: nothing changes.
pub fn paint_depth(
    canvas: &mut RowWords<'_>,
    fill: DepthFill,
    mark: Mark,
    list: &mut [u32],
    width: Width,
) -> Result<Stepped, Refusal>
    requires first_bound { (fill.buckets.first ≤ fill.buckets.«end») × (fill.buckets.«end» ≤ length canvas.old.depth.now)
        × (fill.buckets.«end» ≤ 65535) × (0 < mark.id) }
    requires minima { length canvas.old.minima.now ≡ minima-room (length canvas.old.depth.now) }
    requires painting { CanStep canvas.old.painting.now }
    ensures same { SameRow canvas.old canvas.new }
    ensures painted { row_out (painted_of result) canvas.new list.new
        ≡ settled (Some (depth_painted (bucket-tiles width) fill mark canvas.old)) (depth_minima fill mark canvas.old)
        (own-depths canvas.old) canvas.old.painting.now list.old }
{
    let room = list.len() / PIECE;
    let n = write_part(
        canvas.depth,
        canvas.minima,
        fill.buckets,
        mark.id,
        &mut list[..2 * room],
    )?;
    let brush = Brush {
        layer: false,
        attrs_idx: fill.attrs_idx,
        first: 0,
        alpha: None,
        nesting: 0,
        panel: mark.panel,
    };
    spread(list, n, width.tiles(), brush);
    let nesting = canvas.painting[1];
    Ok(advance(canvas.painting, nesting, n))
}

// The runs of a fill's tiles that the row shows for an id; how many. NoRoom, 14.
#[inline(always)]
fn fill_runs(
    row: &StoredRow<'_>,
    canvas: &RowWords<'_>,
    span: TileSpan,
    id: u32,
    list: &mut [u32],
) -> Result<usize, Refusal>
    requires order { (span.first ≤ span.«end») × (span.«end» ≤ tile-end) }
    requires few { length canvas.now.depth.now ≤ 65535 }
    ensures { out result list.new ≡ listing (listed false (length list.old / 2) (shown_in row.now canvas.now id (tiles span))) list.old }
{
    shown_runs(
        canvas.depth,
        summary_of(row.state),
        span,
        id,
        list,
        row.width,
    )
}

/// A paint's or a layer's fill gives the runs of its tiles that are shown for its attribute's id. NoRoom, 14, where the list has no room: nothing changes.
#[inline(always)]
pub fn paint_fill(
    row: &StoredRow<'_>,
    canvas: &mut RowWords<'_>,
    layer: bool,
    fill: Fill,
    mark: Mark,
    list: &mut [u32],
) -> Result<Stepped, Refusal>
    requires first_bound { (fill.span.first ≤ fill.span.«end») × (fill.span.«end» ≤ tile-end)
        × Moves fill.alpha (fill.span.«end» - fill.span.first) × (length canvas.old.depth.now ≤ 65535) }
    requires painting { CanStep canvas.old.painting.now }
    ensures same { SameRow canvas.old canvas.new }
    ensures painted { row_out (painted_of result) canvas.new list.new
        ≡ settled (Some (fill_painted row.now layer fill mark canvas.old)) canvas.old.minima.now
        (own-depths canvas.old) canvas.old.painting.now list.old }
{
    let room = list.len() / PIECE;
    let n = fill_runs(row, canvas, fill.span, mark.id, &mut list[..2 * room])?;
    let nesting = canvas.painting[1];
    let brush = Brush {
        layer,
        attrs_idx: fill.attrs_idx,
        first: fill.span.first,
        alpha: fill.alpha,
        nesting,
        panel: mark.panel,
    };
    spread(list, n, 1, brush);
    Ok(advance(canvas.painting, nesting, n))
}
