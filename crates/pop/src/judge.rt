//! The tests of a pop, in the order of its refusals: what is lent, the innermost layer, the rows of its box and its clip's segments, ids and attributes.
//! Parts of `pop_layer`: where one asks something, its callers have judged it.
ghost use Rattle.std.specs.Prelude.{◌≡◌, ◌&&◌, ◌-◌, ◌*◌, ◌≤◌, true, length, IfOk};
ghost use Rattle.sizes.specs.Sizes.{most-layers, open-layer-table};
ghost use Rattle.rules.specs.Plans.{clip-box};
ghost use Rattle.rect.specs.Rects.{box_of};
ghost use Rattle.screen.specs.Judging.{judged};
ghost use Rattle.segments.specs.Segs.{origin, bounds, Starts, AtMost};
ghost use Rattle.sizes.specs.Refusals.{answer_number};
ghost use Rattle.screen.specs.Layers.{good_layer, good_own_box};
ghost use Rattle.pop.specs.Pop.{layers-in, good_lengths, number, Closes};
ghost use Rattle.pop.specs.Named.{WholeRows, InScreen, plain_number, clip_number, open_number, pop_lent_of, clip_segments, ClipSure, KnownGood};

use crate::rows::{ClipPath, is_full_clip, judge_pop_rows};
use rect::Rect;
use row::Rows;
use row::room::Fault;
use screen::layers::{Layers, OpenLayer, is_good_own_box};
use screen::{Screen, judge_screen};
use segments::{judge_segments, most_on_a_row, scene_of};
use sizes::answers::Refusal;
use sizes::{LAST_ID, LAYER_TABLE, MOST_ATTRS, OPACITIES, OPEN_TABLE, SEGMENT};
use std::ops::Range;

/// How the innermost layer closes: the layer, its parent's box, its box's rows, and its clip's segments where it has a clip.
#[derive(Drop)]
pub struct Closing {
    pub layer: OpenLayer,
    pub parent: Rect,
    pub band: Range<usize>,
    pub clip: Option<ClipPath>,
}

// The box of the innermost layer's parent.
fn parent_box(viewport: Rect, layers: &Layers<'_>, open: u32) -> Rect
    requires some { 1 ≤ «open» }
    requires deep { «open» ≤ most-layers }
    requires table { length layers.now.table.now ≡ open-layer-table }
    ensures { box_of result ≡ clip-box (box_of viewport) (layers-in layers.now.table.now («open» - 1)) }
{
    if open == 1 {
        return viewport.whole();
    }
    layers.box_at(open - 2)
}

// How many words are lent beside the screen's (answer 4).
#[tactic(auto, unfolding(crate::specs::Pop::good_lengths))]
fn is_good_lengths(layers: usize, opacities: usize, attrs: usize, list: usize) -> bool
    ensures { result ≡ good_lengths layers opacities attrs list }
{
    layers == OPEN_TABLE && opacities == OPACITIES && attrs == LAYER_TABLE && list % SEGMENT == 0
}

// The layer, its own box, its parent's box (answer 4).
fn is_good_open(viewport: Rect, layer: OpenLayer, parent: Rect) -> bool
    ensures { result ≡ (good_layer layer && good_own_box (box_of viewport) (box_of layer.bbox) && good_own_box (box_of viewport) (box_of parent)) }
{
    layer.is_good() && is_good_own_box(viewport, layer.bbox) && is_good_own_box(viewport, parent)
}

// Without a clip: BadRecord for the rows of the band, then Ids, FullAttrs and FullRow.
// Out of line: within `pop_layer` it takes registers from the loops over a clip's segments.
#[inline(never)]
fn judge_plain(screen: Screen, rows: &Rows<'_>, band: &Range<usize>) -> Result<(), Refusal>
    requires whole { WholeRows screen rows.now }
    requires band { InScreen screen band.now }
    requires some { 1 ≤ screen.layers }
    requires deep { screen.layers ≤ most-layers }
    ensures { answer_number result ≡ plain_number screen band.now rows.now }
{
    let fault = judge_pop_rows(screen, rows, band, 1)?;
    if LAST_ID < screen.next_draw_id {
        return Err(Refusal::Ids);
    }
    if MOST_ATTRS <= screen.layer_attrs {
        return Err(Refusal::FullAttrs);
    }
    fault.answer()
}

// With a clip: BadRecord for the rows of the band or a segment, BadOrder for their order, then Ids, FullAttrs and FullRow.
#[inline(never)]
fn judge_clip_exactly(
    screen: Screen,
    rows: &Rows<'_>,
    list: &[u32],
    clip: ClipPath,
    band: &Range<usize>,
) -> Result<(), Refusal>
    requires whole { WholeRows screen rows.now }
    requires band { InScreen screen band.now }
    requires some { 1 ≤ screen.layers }
    requires deep { screen.layers ≤ most-layers }
    requires ordered { clip.start ≤ clip.«end» }
    requires listed { 5 * clip.«end» ≤ length list.now }
    requires starts { Starts (origin clip.scene) (bounds clip.scene) }
    ensures { answer_number result ≡ clip_number screen band.now rows.now clip list.now }
{
    let fault = judge_pop_rows(screen, rows, band, 0)?;
    judge_segments(list, clip.start, clip.end)?;
    if LAST_ID < screen.next_draw_id {
        return Err(Refusal::Ids);
    }
    if MOST_ATTRS <= screen.layer_attrs {
        return Err(Refusal::FullAttrs);
    }
    fault.answer()?;
    if is_full_clip(screen, rows, list, clip, band) {
        return Err(Refusal::FullRow);
    }
    Ok(())
}

/// Segments of a list, from start to end, which have been judged: they are good, and in order.
#[derive(Clone, Copy, Debug, PartialEq, Eq)]
pub struct Known {
    pub start: usize,
    pub end: usize,
}

// Where a clip's segments are good and in order, and a row has at most so many of them: yes only where each touched row of the band is good, and has room for
// those and for its PopBuf. Out of line: its loop shares registers with no other.
#[inline(never)]
fn is_roomy(
    screen: Screen,
    rows: &Rows<'_>,
    list: &[u32],
    clip: ClipPath,
    band: &Range<usize>,
    most: usize,
) -> bool
    requires whole { WholeRows screen rows.now }
    requires band { InScreen screen band.now }
    requires some { 1 ≤ screen.layers }
    requires deep { screen.layers ≤ most-layers }
    requires starts { Starts (origin clip.scene) (bounds clip.scene) }
    requires few { AtMost most (clip_segments clip list.now) }
    ensures { result ≡ true → ClipSure screen band.now rows.now clip list.now }
{
    if screen.c as usize <= most {
        return false;
    }
    match judge_pop_rows(screen, rows, band, most) {
        Ok(Fault::Nothing) => true,
        _ => false,
    }
}

// A clip's segments are those that have been judged, of which no row has more than all: yes as above.
#[inline(always)]
fn is_known_sure(
    screen: Screen,
    rows: &Rows<'_>,
    list: &[u32],
    known: Option<Known>,
    clip: ClipPath,
    band: &Range<usize>,
) -> bool
    requires known { KnownGood list.now known }
    requires whole { WholeRows screen rows.now }
    requires band { InScreen screen band.now }
    requires some { 1 ≤ screen.layers }
    requires deep { screen.layers ≤ most-layers }
    requires ordered { clip.start ≤ clip.«end» }
    requires starts { Starts (origin clip.scene) (bounds clip.scene) }
    ensures { result ≡ true → ClipSure screen band.now rows.now clip list.now }
{
    let Some(known) = known else {
        return false;
    };
    if known.start != clip.start || known.end != clip.end {
        return false;
    }
    is_roomy(screen, rows, list, clip, band, clip.end - clip.start)
}

// Yes only where nothing of the rows of the band, of the clip's segments and of their room is refused: they have been judged, or one look at each segment, and
// room for the most that a row has of them at each touched row.
#[inline(always)]
fn is_sure(
    screen: Screen,
    rows: &Rows<'_>,
    list: &[u32],
    known: Option<Known>,
    clip: ClipPath,
    band: &Range<usize>,
) -> bool
    requires known { KnownGood list.now known }
    requires whole { WholeRows screen rows.now }
    requires band { InScreen screen band.now }
    requires some { 1 ≤ screen.layers }
    requires deep { screen.layers ≤ most-layers }
    requires ordered { clip.start ≤ clip.«end» }
    requires listed { 5 * clip.«end» ≤ length list.now }
    requires starts { Starts (origin clip.scene) (bounds clip.scene) }
    ensures { result ≡ true → ClipSure screen band.now rows.now clip list.now }
{
    if is_known_sure(screen, rows, list, known, clip, band) {
        return true;
    }
    let Some(most) = most_on_a_row(list, clip.start, clip.end) else {
        return false;
    };
    is_roomy(screen, rows, list, clip, band, most)
}

// With a clip: as exactly, told which segments have been judged, by one look where that is sure.
#[inline(always)]
fn judge_clip(
    screen: Screen,
    rows: &Rows<'_>,
    list: &[u32],
    known: Option<Known>,
    clip: ClipPath,
    band: &Range<usize>,
) -> Result<(), Refusal>
    requires known { KnownGood list.now known }
    requires whole { WholeRows screen rows.now }
    requires band { InScreen screen band.now }
    requires some { 1 ≤ screen.layers }
    requires deep { screen.layers ≤ most-layers }
    requires ordered { clip.start ≤ clip.«end» }
    requires listed { 5 * clip.«end» ≤ length list.now }
    requires starts { Starts (origin clip.scene) (bounds clip.scene) }
    ensures { answer_number result ≡ clip_number screen band.now rows.now clip list.now }
{
    if !is_sure(screen, rows, list, known, clip, band) {
        return judge_clip_exactly(screen, rows, list, clip, band);
    }
    if LAST_ID < screen.next_draw_id {
        return Err(Refusal::Ids);
    }
    if MOST_ATTRS <= screen.layer_attrs {
        return Err(Refusal::FullAttrs);
    }
    Ok(())
}

// With a layer open: BadRecord for it, then what its rows and its list say. It gives how the layer closes.
#[inline(always)]
fn judge_open(
    screen: Screen,
    rows: &Rows<'_>,
    layers: &Layers<'_>,
    list: &[u32],
    known: Option<Known>,
) -> Result<Closing, Refusal>
    requires known { KnownGood list.now known }
    requires screen { judged screen (length rows.now.state.now) (length rows.now.render_cmds.now) (length rows.now.depth_cmds.now) ≡ 0 }
    requires table { length layers.now.table.now ≡ open-layer-table }
    requires some { 1 ≤ screen.layers }
    ensures closing { IfOk result (Closes screen layers.now.table.now) }
    ensures number { answer_number result ≡ open_number screen rows.now layers.now.table.now list.now }
{
    let layer = layers.open_at(screen.layers - 1);
    let parent = parent_box(screen.viewport, layers, screen.layers);
    if !is_good_open(screen.viewport, layer, parent) {
        return Err(Refusal::BadRecord);
    }
    let band = layer.bbox.rows();
    if layer.flag == 0 {
        judge_plain(screen, rows, &band)?;
        return Ok(Closing {
            layer,
            parent,
            band,
            clip: None,
        });
    }
    if list.len() / SEGMENT < layer.end as usize {
        return Err(Refusal::BadRecord);
    }
    let clip = ClipPath {
        start: layer.start as usize,
        end: layer.end as usize,
        scene: scene_of(screen.viewport, parent),
    };
    judge_clip(screen, rows, list, known, clip, &band)?;
    Ok(Closing {
        layer,
        parent,
        band,
        clip: Some(clip),
    })
}

/// A pop, before anything is done, told which segments have been judged: BadViewport, BadArena, BadRecord for the lengths, NoLayer with none open, and then as above.
#[inline(always)]
pub fn judge_pop(
    screen: Screen,
    rows: &Rows<'_>,
    layers: &Layers<'_>,
    layer_attrs: &[u32],
    list: &[u32],
    known: Option<Known>,
) -> Result<Closing, Refusal>
    requires known { KnownGood list.now known }
    ensures closing { IfOk result (Closes screen layers.now.table.now) }
    ensures number { answer_number result ≡ number screen (pop_lent_of rows.now layers.now layer_attrs.now) list.now }
{
    judge_screen(
        screen,
        rows.state.len(),
        rows.render_cmds.len(),
        rows.depth_cmds.len(),
    )?;
    if !is_good_lengths(
        layers.table.len(),
        layers.opacities.len(),
        layer_attrs.len(),
        list.len(),
    ) {
        return Err(Refusal::BadRecord);
    }
    if screen.layers == 0 {
        return Err(Refusal::NoLayer);
    }
    judge_open(screen, rows, layers, list, known)
}
