//! A filter fill (rule 11; bucketer.rs, generate_filter_layer_fill). `filter_fill` is a public call; the others are parts of it.
ghost use Rattle.std.specs.Prelude.{◌≡◌, ◌||◌, ◌≤◌, IfOk, OnOk, OnErr};
ghost use Rattle.std.proofs.Math.IntN.{sub_ℕ};
ghost use Rattle.sizes.specs.Sizes.{most-filters, most-records, scene-end};
ghost use Rattle.sizes.specs.Refusals.{answer_number};
ghost use Rattle.rules.specs.Answers.{answer};
ghost use Rattle.rules.specs.Boxes.{meet, to-local, empty-box};
ghost use Rattle.rules.specs.Lists.{is_none};
ghost use Rattle.rect.specs.Rects.{box_of};
ghost use Rattle.row.specs.Rows.{all-held, SameRows};
ghost use Rattle.layers.specs.Filter.{given_of, good-given, paint-from, attrs-of, filter_lent_of, first-number, filter-number, after, filtered, Draws, Drawing, OnlyPaints};

use crate::rows::{Plain, judge_rows, on_rows};
use cmd::attrs::{FilterPaint, PaintFillAttrs, put_filter_paint, put_paint_attrs};
use cmd::blend::Blend;
use inputs::Filter;
use rect::Rect;
use row::Rows;
use screen::{Screen, judge_screen};
use sizes::answers::Refusal;
use sizes::{
    FILTER_TABLE, LAST_ID, MOST_ATTRS, MOST_FILTERS, MOST_RECORDS, PAINT_TABLE, PANEL_END,
};

/// What a filter fill is given: what the filter layer draws; how many paints the paint list has, after which the filter paints are counted; the layer's panel.
#[derive(Clone, Copy, Debug, PartialEq, Eq)]
pub struct FilterFill {
    pub filter: Filter,
    pub paint_count: u32,
    pub panel: u32,
}

impl FilterFill {
    // Whether what a filter fill is given is in its bounds (answer 4).
    fn is_good(self) -> bool
        ensures { result ≡ good-given (given_of self) }
    {
        self.filter.is_good() && self.paint_count as usize <= MOST_RECORDS && self.panel < PANEL_END
    }
}

/// The dest box, made local and met with the clip box: pixels, local to the viewport.
pub fn filter_box(viewport: Rect, clip: Rect, dest: Rect) -> Rect
    ensures { box_of result ≡ meet (to-local (box_of viewport) (box_of dest)) (box_of clip) }
{
    dest.relative_to_origin(viewport.x0, viewport.y0)
        .intersect(clip)
}

// Source minus destination, exact.
fn shift(source: u32, dest: u32) -> i32
    requires source { source ≤ scene-end }
    requires dest { dest ≤ scene-end }
    ensures { result ≡ sub_ℕ source dest }
{
    (source as i32) - (dest as i32)
}

/// Whether there is no picture, or the box is empty: the fill is done and takes nothing.
pub fn draws_nothing(pixmap: Option<u32>, bbox: Rect) -> bool
    ensures { result ≡ (is_none pixmap || empty-box (box_of bbox)) }
{
    pixmap.is_none() || bbox.is_empty()
}

// The paint that a filter fill adds. The dest box is the one given, not made local.
fn filter_paint(dest: Rect, source_x: u32, source_y: u32, pixmap: u32) -> FilterPaint
    requires across { source_x ≤ scene-end }
    requires down { source_y ≤ scene-end }
    requires left { dest.x0 ≤ scene-end }
    requires top { dest.y0 ≤ scene-end }
    ensures { result ≡ paint-from dest source_x source_y pixmap }
{
    FilterPaint {
        pixmap,
        shift_x: shift(source_x, dest.x0),
        shift_y: shift(source_y, dest.y0),
    }
}

// The attribute that it adds: default blend, no mask, thread 0, the given panel.
fn filter_attrs(screen: Screen, paint_count: u32, panel: u32) -> PaintFillAttrs
    requires count { paint_count ≤ most-records }
    requires paints { screen.filter_paints ≤ most-filters }
    ensures { result ≡ attrs-of screen paint_count panel }
{
    PaintFillAttrs {
        paint: paint_count + screen.filter_paints,
        blend: Blend::default(),
        mask: 0,
        draw_id: screen.next_draw_id,
        thread_idx: 0,
        origin_x: screen.viewport.x0,
        origin_y: screen.viewport.y0,
        panel,
    }
}

// What the screen and the lengths of what is lent say: BadViewport, then BadArena, then BadRecord.
fn judge_lent(
    screen: Screen,
    rows: &Rows<'_>,
    paint_attrs: &[u32],
    filter_paints: &[i32],
) -> Result<(), Refusal>
    ensures { answer_number result ≡ first-number (filter_lent_of screen rows.now paint_attrs.now filter_paints.now) }
{
    judge_screen(
        screen,
        rows.state.len(),
        rows.render_cmds.len(),
        rows.depth_cmds.len(),
    )?;
    if paint_attrs.len() != PAINT_TABLE || filter_paints.len() != FILTER_TABLE {
        return Err(Refusal::BadRecord);
    }
    Ok(())
}

// A filter fill of what `judge_lent` has passed, before anything is done: BadRecord; then done where nothing is drawn; then Ids, FullAttrs, FullRow. It gives
// the box that is drawn, or none.
fn judge_filter(
    screen: Screen,
    rows: &Rows<'_>,
    paint_attrs: &[u32],
    filter_paints: &[i32],
    fill: FilterFill,
) -> Result<Option<Rect>, Refusal>
    requires { first-number (filter_lent_of screen rows.now paint_attrs.now filter_paints.now) ≡ 0 }
    ensures drawn { IfOk result (Draws (given_of fill) screen) }
    ensures number { answer_number result ≡ filter-number (given_of fill) (filter_lent_of screen rows.now paint_attrs.now filter_paints.now) }
{
    if !fill.is_good() {
        return Err(Refusal::BadRecord);
    }
    let bbox = filter_box(screen.viewport, screen.clip_bbox, fill.filter.dest);
    if draws_nothing(fill.filter.pixmap, bbox) {
        return Ok(None);
    }
    let fault = judge_rows(screen, rows.state, &bbox.rows())?;
    if LAST_ID < screen.next_draw_id {
        return Err(Refusal::Ids);
    }
    if MOST_ATTRS <= screen.paint_attrs || MOST_FILTERS <= screen.filter_paints {
        return Err(Refusal::FullAttrs);
    }
    fault.answer()?;
    Ok(Some(bbox))
}

// A filter fill that was judged done and draws something.
fn draw(
    screen: &mut Screen,
    rows: &mut Rows<'_>,
    paint_attrs: &mut [u32],
    filter_paints: &mut [i32],
    fill: FilterFill,
    bbox: Rect,
)
    requires { Drawing (given_of fill) (filter_lent_of screen.old rows.old paint_attrs.old filter_paints.old) bbox }
    ensures same { SameRows rows.old rows.new }
    ensures left { OnlyPaints screen.old screen.new }
    ensures drawn { filter_lent_of screen.new rows.new paint_attrs.new filter_paints.new
        ≡ after (given_of fill) (filter_lent_of screen.old rows.old paint_attrs.old filter_paints.old) }
{
    let from = fill.filter;
    let handle = from.pixmap.unwrap_or(0);
    let paint = filter_paint(from.dest, from.source_x, from.source_y, handle);
    let attrs = filter_attrs(*screen, fill.paint_count, fill.panel);
    put_filter_paint(filter_paints, screen.filter_paints as usize, paint);
    put_paint_attrs(paint_attrs, screen.paint_attrs as usize, attrs);
    let plain = Plain {
        layers: screen.layers,
        span: bbox.bbox_span(),
        attrs_idx: screen.paint_attrs,
    };
    on_rows(*screen, rows, &bbox.rows(), plain);
    screen.take_filter(1);
}

/// A filter fill of what `judge_lent` has passed.
#[inline(never)]
pub fn filter_judged(
    screen: &mut Screen,
    rows: &mut Rows<'_>,
    paint_attrs: &mut [u32],
    filter_paints: &mut [i32],
    fill: FilterFill,
) -> Result<(), Refusal>
    requires { first-number (filter_lent_of screen.old rows.old paint_attrs.old filter_paints.old) ≡ 0 }
    ensures same { SameRows rows.old rows.new }
    ensures left { OnlyPaints screen.old screen.new }
    ensures filtered { answer (answer_number result) (filter_lent_of screen.new rows.new paint_attrs.new filter_paints.new)
        ≡ filtered (given_of fill) (filter_lent_of screen.old rows.old paint_attrs.old filter_paints.old) }
    ensures refused { answer_number result ≡ filter-number (given_of fill) (filter_lent_of screen.old rows.old paint_attrs.old filter_paints.old) }
    ensures unchanged { OnErr result (filter_lent_of screen.new rows.new paint_attrs.new filter_paints.new
        ≡ filter_lent_of screen.old rows.old paint_attrs.old filter_paints.old) }
    ensures done { OnOk result (filter_lent_of screen.new rows.new paint_attrs.new filter_paints.new
        ≡ after (given_of fill) (filter_lent_of screen.old rows.old paint_attrs.old filter_paints.old)) }
{
    match judge_filter(*screen, rows, paint_attrs, filter_paints, fill)? {
        None => screen.take_filter(0),
        Some(bbox) => draw(screen, rows, paint_attrs, filter_paints, fill, bbox),
    }
    Ok(())
}

/// Rule 11: one id, one filter paint, one attribute, and a fill on each row of the box; or nothing. BadViewport, BadArena, BadRecord, Ids, FullAttrs or
/// FullRow: refused, the screen and every lent word stay.
pub fn filter_fill(
    screen: &mut Screen,
    rows: &mut Rows<'_>,
    paint_attrs: &mut [u32],
    filter_paints: &mut [i32],
    fill: FilterFill,
) -> Result<(), Refusal>
    ensures same { SameRows rows.old rows.new }
    ensures filtered { answer (answer_number result) (filter_lent_of screen.new rows.new paint_attrs.new filter_paints.new)
        ≡ filtered (given_of fill) (filter_lent_of screen.old rows.old paint_attrs.old filter_paints.old) }
    ensures refused { answer_number result ≡ filter-number (given_of fill) (filter_lent_of screen.old rows.old paint_attrs.old filter_paints.old) }
    ensures unchanged { OnErr result (filter_lent_of screen.new rows.new paint_attrs.new filter_paints.new
        ≡ filter_lent_of screen.old rows.old paint_attrs.old filter_paints.old) }
    ensures done { OnOk result (filter_lent_of screen.new rows.new paint_attrs.new filter_paints.new
        ≡ after (given_of fill) (filter_lent_of screen.old rows.old paint_attrs.old filter_paints.old)) }
{
    judge_lent(*screen, rows, paint_attrs, filter_paints)?;
    filter_judged(screen, rows, paint_attrs, filter_paints, fill)
}
