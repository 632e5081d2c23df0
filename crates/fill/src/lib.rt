//! A fill (rules 3 to 7; bucketer.rs, generate_fill): judged, then done. `fill` is a public call; the others are parts of it, and `is_eligible` also of the
//! story of a tile.
#![tactic(auto)]

ghost use Rattle.std.specs.Prelude.{◌≡◌, true, ◌/◌, ◌<◌, eqb, length, IfOk, OnOk, OnErr};
ghost use Rattle.sizes.specs.Refusals.{answer_number};
ghost use Rattle.rules.specs.Answers.{answer};
ghost use Rattle.rules.specs.Boxes.{good_viewport};
ghost use Rattle.rules.specs.Inputs.{good-paint, draw-paint};
ghost use Rattle.rules.specs.Plans.{eligible};
ghost use Rattle.rect.specs.Rects.{box_of};
ghost use Rattle.row.specs.Rows.{SameRows};
ghost use Rattle.screen.specs.Screens.{good_screen};
ghost use Rattle.inputs.specs.Inputs.{draw-of};
ghost use Rattle.fill.specs.Fills.{paint-at, paints-of, good-draw-at, good-fill-at, job_of, attr-of, first-of-lent, fill_number, fill_done, filled};
ghost use Rattle.fill.specs.Named.{fill_lent_of, KnownDraw, OnlyFilled};

use crate::judge::judge_list;
use crate::rows::{ALONE, FillJob, KNOWN, fill_rows};
use cmd::attrs::{PaintFillAttrs, put_paint_attrs};
use inputs::Draw;
use row::Rows;
use screen::{Screen, judge_screen};
use segments::scene_of;
use sizes::answers::Refusal;
use sizes::{HANDLE_END, LAST_ID, MOST_ATTRS, MOST_RECORDS, PAINT, PAINT_TABLE, SEGMENT};

pub mod judge;
pub mod list;
pub mod rows;
pub mod single;
pub mod turns;

// Whether a paint's opaque flag and handle are in their bounds.
fn is_good_paint(paints: &[u32], paint: usize) -> bool
    requires { paint < length paints.now / 4 }
    ensures { result ≡ good-paint (paint-at paints.now paint) }
{
    paints[PAINT * paint] <= 1 && paints[PAINT * paint + 1] < HANDLE_END
}

// The draw's own fields, and the paint that it names (answer 4).
#[tactic(auto, unfolding(inputs::specs::Inputs::draw_fields))]
fn is_good_draw(paints: &[u32], segments: &[u32], draw: Draw) -> bool
    ensures { result ≡ good-draw-at paints.now segments.now draw }
{
    draw.is_good(paints.len() / PAINT, segments.len() / SEGMENT)
        && is_good_paint(paints, draw.paint as usize)
}

// The same, and how many paints are lent (answer 4).
fn is_good_fill(paints: &[u32], segments: &[u32], draw: Draw) -> bool
    ensures { result ≡ good-fill-at paints.now segments.now draw }
{
    paints.len() / PAINT <= MOST_RECORDS && is_good_draw(paints, segments, draw)
}

// The same, without a look where it is known.
fn is_good_by<const WAY: u32>(paints: &[u32], segments: &[u32], draw: Draw) -> bool
    requires known { WAY ≡ KNOWN → KnownDraw paints.now segments.now draw }
    ensures { result ≡ good-fill-at paints.now segments.now draw }
{
    WAY == KNOWN || is_good_fill(paints, segments, draw)
}

/// Rule 6: whether the solid segments of a draw may become depth fills. No layer is open, the blend is the default, there is no mask, and the paint is opaque.
#[tactic(auto, using(crate::proofs::Inputs::eligible_at))]
pub fn is_eligible(layers: u32, paints: &[u32], draw: Draw) -> bool
    requires { draw.paint < length paints.now / 4 }
    ensures { result ≡ eligible (eqb layers 0) (draw-paint (paints-of paints.now) (draw-of draw)) (draw-of draw) }
{
    layers == 0
        && draw.blend.is_default()
        && draw.mask == 0
        && paints[PAINT * draw.paint as usize] == 1
}

// What the segments of the draw have in common.
fn job_of(screen: Screen, paints: &[u32], draw: Draw) -> FillJob
    requires viewport { good_viewport (box_of screen.viewport) ≡ true }
    requires numbers { good_screen screen ≡ true }
    requires paint { draw.paint < length paints.now / 4 }
    ensures { result ≡ job_of screen paints.now draw }
{
    FillJob {
        scene: scene_of(screen.viewport, screen.clip_bbox),
        c: screen.c,
        d: screen.d,
        layers: screen.layers,
        eligible: is_eligible(screen.layers, paints, draw),
        attr: screen.paint_attrs,
        id: screen.next_draw_id,
        width: screen.width,
    }
}

// What the screen and the lengths of what is lent say: BadViewport, then BadArena, then BadRecord.
#[tactic(auto, unfolding(crate::specs::Fills::first_number))]
fn judge_lent(
    screen: Screen,
    rows: &Rows<'_>,
    paint_attrs: &[u32],
    paints: &[u32],
    segments: &[u32],
) -> Result<(), Refusal>
    ensures { answer_number result ≡ first-of-lent (fill_lent_of screen rows.now paint_attrs.now) paints.now segments.now }
{
    judge_screen(
        screen,
        rows.state.len(),
        rows.render_cmds.len(),
        rows.depth_cmds.len(),
    )?;
    if paint_attrs.len() != PAINT_TABLE
        || paints.len() % PAINT != 0
        || segments.len() % SEGMENT != 0
    {
        return Err(Refusal::BadRecord);
    }
    Ok(())
}

// A fill of what `judge_lent` has passed, before anything is done: BadRecord, BadOrder, Ids, FullAttrs if there is a segment, FullRow, FullDepth, in this
// order. It gives what its segments have in common.
fn judge_fill<const WAY: u32>(
    screen: Screen,
    rows: &Rows<'_>,
    paint_attrs: &[u32],
    paints: &[u32],
    segments: &[u32],
    draw: Draw,
) -> Result<FillJob, Refusal>
    requires judged { first-of-lent (fill_lent_of screen rows.now paint_attrs.now) paints.now segments.now ≡ 0 }
    requires known { WAY ≡ KNOWN → KnownDraw paints.now segments.now draw }
    ensures job { IfOk result (λ j. j ≡ job_of screen paints.now draw) }
    ensures number { answer_number result
        ≡ fill_number (fill_lent_of screen rows.now paint_attrs.now) paints.now segments.now draw }
{
    if !is_good_by::<WAY>(paints, segments, draw) {
        return Err(Refusal::BadRecord);
    }
    let job = job_of(screen, paints, draw);
    let fault = judge_list::<WAY>(rows.state, segments, draw.start, draw.end, job)?;
    if LAST_ID < screen.next_draw_id {
        return Err(Refusal::Ids);
    }
    if draw.start == draw.end {
        return Ok(job);
    }
    if MOST_ATTRS <= screen.paint_attrs {
        return Err(Refusal::FullAttrs);
    }
    fault.answer()?;
    Ok(job)
}

// The attribute that a fill adds.
fn attrs_of(screen: Screen, draw: Draw) -> PaintFillAttrs
    ensures { result ≡ attr-of screen draw }
{
    PaintFillAttrs {
        paint: draw.paint,
        blend: draw.blend,
        mask: draw.mask,
        draw_id: screen.next_draw_id,
        thread_idx: draw.thread,
        origin_x: screen.viewport.x0,
        origin_y: screen.viewport.y0,
        panel: draw.panel,
    }
}

// A fill of what `judge_lent` has passed. WAY changes nothing of what is done (`rows`): each way has machine code of its own, in which the loops over segments
// keep their registers.
fn fill_one<const WAY: u32>(
    screen: &mut Screen,
    rows: &mut Rows<'_>,
    paint_attrs: &mut [u32],
    paints: &[u32],
    segments: &[u32],
    draw: Draw,
) -> Result<(), Refusal>
    requires judged { first-of-lent (fill_lent_of screen.old rows.old paint_attrs.old) paints.now segments.now ≡ 0 }
    requires known { WAY ≡ KNOWN → KnownDraw paints.now segments.now draw }
    ensures same { SameRows rows.old rows.new }
    ensures left { OnlyFilled screen.old screen.new }
    ensures refused { answer_number result
        ≡ fill_number (fill_lent_of screen.old rows.old paint_attrs.old) paints.now segments.now draw }
    ensures unchanged { OnErr result
        (fill_lent_of screen.new rows.new paint_attrs.new ≡ fill_lent_of screen.old rows.old paint_attrs.old) }
    ensures done { OnOk result (fill_lent_of screen.new rows.new paint_attrs.new
        ≡ fill_done (fill_lent_of screen.old rows.old paint_attrs.old) paints.now segments.now draw) }
    ensures filled { answer (answer_number result) (fill_lent_of screen.new rows.new paint_attrs.new)
        ≡ filled (fill_lent_of screen.old rows.old paint_attrs.old) paints.now segments.now draw }
{
    let job = judge_fill::<WAY>(*screen, rows, paint_attrs, paints, segments, draw)?;
    if draw.start == draw.end {
        screen.take_fill(0);
        return Ok(());
    }
    let attrs = attrs_of(*screen, draw);
    put_paint_attrs(paint_attrs, screen.paint_attrs as usize, attrs);
    fill_rows::<WAY>(rows, segments, draw.start, draw.end, job);
    screen.take_fill(1);
    Ok(())
}

/// `fill`, of what its judge of the screen and of all lengths has passed.
#[inline(never)]
pub fn fill_judged(
    screen: &mut Screen,
    rows: &mut Rows<'_>,
    paint_attrs: &mut [u32],
    paints: &[u32],
    segments: &[u32],
    draw: Draw,
) -> Result<(), Refusal>
    requires judged { first-of-lent (fill_lent_of screen.old rows.old paint_attrs.old) paints.now segments.now ≡ 0 }
    ensures same { SameRows rows.old rows.new }
    ensures left { OnlyFilled screen.old screen.new }
    ensures refused { answer_number result
        ≡ fill_number (fill_lent_of screen.old rows.old paint_attrs.old) paints.now segments.now draw }
    ensures unchanged { OnErr result
        (fill_lent_of screen.new rows.new paint_attrs.new ≡ fill_lent_of screen.old rows.old paint_attrs.old) }
    ensures done { OnOk result (fill_lent_of screen.new rows.new paint_attrs.new
        ≡ fill_done (fill_lent_of screen.old rows.old paint_attrs.old) paints.now segments.now draw) }
    ensures filled { answer (answer_number result) (fill_lent_of screen.new rows.new paint_attrs.new)
        ≡ filled (fill_lent_of screen.old rows.old paint_attrs.old) paints.now segments.now draw }
{
    fill_one::<ALONE>(screen, rows, paint_attrs, paints, segments, draw)
}

/// Rules 3 to 7. The lists are lent as words, PAINT a paint and SEGMENT a segment. BadViewport, BadArena, BadRecord, BadOrder, Ids, FullAttrs, FullRow or
/// FullDepth: refused, the screen and every lent word stay. What is done is what the rules' `plan-fill` says.
#[inline(never)]
pub fn fill(
    screen: &mut Screen,
    rows: &mut Rows<'_>,
    paint_attrs: &mut [u32],
    paints: &[u32],
    segments: &[u32],
    draw: Draw,
) -> Result<(), Refusal>
    ensures same { SameRows rows.old rows.new }
    ensures refused { answer_number result
        ≡ fill_number (fill_lent_of screen.old rows.old paint_attrs.old) paints.now segments.now draw }
    ensures unchanged { OnErr result
        (fill_lent_of screen.new rows.new paint_attrs.new ≡ fill_lent_of screen.old rows.old paint_attrs.old) }
    ensures done { OnOk result (fill_lent_of screen.new rows.new paint_attrs.new
        ≡ fill_done (fill_lent_of screen.old rows.old paint_attrs.old) paints.now segments.now draw) }
    ensures filled { answer (answer_number result) (fill_lent_of screen.new rows.new paint_attrs.new)
        ≡ filled (fill_lent_of screen.old rows.old paint_attrs.old) paints.now segments.now draw }
{
    judge_lent(*screen, rows, paint_attrs, paints, segments)?;
    fill_judged(screen, rows, paint_attrs, paints, segments, draw)
}
