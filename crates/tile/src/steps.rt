//! What each building step says of one tile, in plain draw order: a line for each attribute that it adds, and no row. Parts: callers have judged the records
//! and chosen a tile of the screen. `lines` holds the lines of all attributes. The refusals are the step's own, but for those of rows.
ghost use Rattle.std.specs.Prelude.{◌≡◌, true, ◌&&◌, not, ◌+◌, ◌-◌, ◌*◌, length, ltb};
ghost use Rattle.sizes.specs.Sizes.{last-id, line-table};
ghost use Rattle.sizes.specs.Refusals.{answer_number};
ghost use Rattle.rules.specs.Answers.{answer};
ghost use Rattle.rules.specs.Lists.{is_none};
ghost use Rattle.rules.specs.Boxes.{empty-box};
ghost use Rattle.rules.specs.Blends.{destructive};
ghost use Rattle.rules.specs.Inputs.{all-good};
ghost use Rattle.rect.specs.Rects.{box_of, Small};
ghost use Rattle.screen.specs.Layers.{clip-of};
ghost use Rattle.tile.specs.Telling.{in_row};
ghost use Rattle.tile.specs.Places.{Spotted, GoodRun, Bounded, Low, ClipReady, Opens, look-of};
ghost use Rattle.tile.specs.Named.{closing_in, fill_told, Tells, TellsPush, TellsPop, TellsFilter};

use crate::steps::lines::{Line, put_line, standing_of};
use crate::steps::looks::{Look, is_in_row, is_met, look_at};
use cmd::blend::Blend;
use layers::filter::{draws_nothing, filter_box};
use rect::Rect;
use screen::layers::{Clip, LayerProps, layer_box};
use sizes::answers::Refusal;
use sizes::{LAST_ID, MOST_ATTRS, MOST_FILTERS, MOST_LAYERS, TILE_HEIGHT, TILE_WIDTH};

pub mod lines;
pub mod looks;

/// The tile that is told of: a row and a tile of the viewport's screen, at so many tiles a bucket (`width`).
#[derive(Clone, Copy, Debug, PartialEq, Eq)]
pub struct Spot {
    pub viewport: Rect,
    pub row: u32,
    pub tile: u32,
    pub width: u32,
}

/// The clip box in force, in pixels, local to the viewport, and how many layers are open.
#[derive(Clone, Copy, Debug, PartialEq, Eq)]
pub struct Within {
    pub clip: Rect,
    pub open: u32,
}

/// What is counted: the next id, the paint attributes, layer attributes and filter paints so far, and for how many of the open layers, from the outermost, the
/// row is touched.
#[derive(Clone, Copy, Debug, PartialEq, Eq)]
pub struct Tale {
    pub next: u32,
    pub paints: u32,
    pub layers: u32,
    pub filters: u32,
    pub levels: u32,
}

/// A draw of this panel with the segments from start to end of a list; `eligible`: those that are solid are (rule 6).
#[derive(Clone, Copy, Debug, PartialEq, Eq)]
pub struct Stroke {
    pub start: usize,
    pub end: usize,
    pub eligible: bool,
    pub panel: u32,
}

// No id remains (answer 8).
fn is_out_of_ids(tale: Tale) -> bool
    ensures { result ≡ ltb last-id tale.next }
{
    LAST_ID < tale.next
}

// Rule 6: an eligible solid segment covers the tile's whole bucket.
fn is_hiding(eligible: bool, look: Look) -> bool
    ensures { result ≡ (eligible && is_none look.alpha && look.whole) }
{
    eligible && look.alpha.is_none() && look.whole
}

/// Rules 3, 4 and 6: a draw. Ids, 8; FullAttrs, 9, if it has a segment.
pub fn tell_fill(
    tale: &mut Tale,
    spot: Spot,
    within: Within,
    segments: &[u32],
    stroke: Stroke,
    lines: &mut [u32],
) -> Result<(), Refusal>
    requires spot { Spotted spot }
    requires within { Bounded within }
    requires counts { Low tale.old }
    requires lines { length lines.old ≡ line-table }
    requires run { GoodRun segments.now stroke.start stroke.«end» }
    ensures low { Low tale.new }
    ensures told { Tells spot within (fill_told spot segments.now stroke) (answer_number result)
        tale.old lines.old tale.new lines.new }
{
    if is_out_of_ids(*tale) {
        return Err(Refusal::Ids);
    }
    if stroke.end <= stroke.start {
        tale.next += 1;
        return Ok(());
    }
    if MOST_ATTRS <= tale.paints {
        return Err(Refusal::FullAttrs);
    }
    let look = look_at(spot, within.clip, segments, stroke.start, stroke.end);
    let line = Line {
        layer: false,
        attribute: tale.paints,
        standing: standing_of(
            look.covered,
            look.kept,
            true,
            is_hiding(stroke.eligible, look),
        ),
        alpha: look.alpha,
        nesting: within.open,
        panel: stroke.panel,
    };
    put_line(lines, tale.paints + tale.layers, line);
    tale.next += 1;
    tale.paints += 1;
    if look.reached {
        tale.levels = within.open;
    }
    Ok(())
}

// Rule 8: a destructive blend touches the row, if its box is not empty and meets it.
fn touches(blend: Blend, bbox: Rect, row: u32) -> bool
    requires { Small (box_of bbox) }
    ensures { result ≡ (destructive blend.compose && not (empty-box (box_of bbox)) && in_row (box_of bbox) row) }
{
    blend.is_destructive() && !bbox.is_empty() && is_in_row(bbox, row)
}

/// Rule 8: a layer is pushed; a destructive one touches the rows of its box. It gives what holds within the layer. Deep, 6, with 16 open.
pub fn tell_push(
    tale: &mut Tale,
    spot: Spot,
    within: Within,
    props: LayerProps,
) -> Result<Within, Refusal>
    requires spot { Spotted spot }
    requires within { Bounded within }
    requires counts { Low tale.old }
    requires clip { all-good (clip-of props.clip) ≡ true }
    ensures low { Low tale.new }
    ensures opens { Opens result within }
    ensures told { TellsPush spot within props result tale.old tale.new }
{
    if MOST_LAYERS <= within.open {
        return Err(Refusal::Deep);
    }
    let bbox = layer_box(spot.viewport, within.clip, props.clip);
    let open = within.open + 1;
    if touches(props.blend, bbox, spot.row) {
        tale.levels = open;
    }
    Ok(Within { clip: bbox, open })
}

// Rule 9: what closes a layer with this clip, cut by the parent's box; without a clip its own box.
fn closing_look(spot: Spot, own: Rect, parent: Rect, clip: Option<Clip>, segments: &[u32]) -> Look
    requires spot { Spotted spot }
    requires boxes { Small (box_of own) × Small (box_of parent) }
    requires clip { ClipReady clip segments.now }
    ensures { look-of result ≡ closing_in spot clip own parent segments.now }
{
    match clip {
        None => {
            let kept = is_met(own, spot.row, spot.tile);
            Look {
                covered: true,
                reached: kept,
                kept,
                alpha: None,
                whole: false,
            }
        }
        Some(c) => look_at(spot, parent, segments, c.start as usize, c.end as usize),
    }
}

/// Rule 9: the innermost layer closes; `within` holds in it, `outer` outside of it. Its entry is told only in a touched row. Ids, 8; FullAttrs, 9.
pub fn tell_pop(
    tale: &mut Tale,
    spot: Spot,
    within: Within,
    outer: Within,
    props: LayerProps,
    segments: &[u32],
    lines: &mut [u32],
) -> Result<(), Refusal>
    requires spot { Spotted spot }
    requires within { Bounded within }
    requires outer { Bounded outer }
    requires inner { within.«open» ≡ outer.«open» + 1 }
    requires counts { Low tale.old }
    requires lines { length lines.old ≡ line-table }
    requires clip { ClipReady props.clip segments.now }
    ensures low { Low tale.new }
    ensures told { TellsPop spot within outer props segments.now result tale.old lines.old tale.new lines.new }
{
    if is_out_of_ids(*tale) {
        return Err(Refusal::Ids);
    }
    if MOST_ATTRS <= tale.layers {
        return Err(Refusal::FullAttrs);
    }
    let look = closing_look(spot, within.clip, outer.clip, props.clip, segments);
    let touched = outer.open < tale.levels;
    let line = Line {
        layer: true,
        attribute: tale.layers,
        standing: standing_of(look.covered, look.kept, touched, false),
        alpha: look.alpha,
        nesting: within.open,
        panel: props.panel,
    };
    put_line(lines, tale.paints + tale.layers, line);
    tale.next += 1;
    tale.layers += 1;
    tale.levels = tale.levels.min(outer.open);
    Ok(())
}

/// Rule 11: a filter fill of this panel into a dest box, in each row of what the clip box leaves of it. Ids, 8, and FullAttrs, 9, if it draws.
pub fn tell_filter(
    tale: &mut Tale,
    spot: Spot,
    within: Within,
    dest: Rect,
    pixmap: Option<u32>,
    panel: u32,
    lines: &mut [u32],
) -> Result<(), Refusal>
    requires spot { Spotted spot }
    requires within { Bounded within }
    requires counts { Low tale.old }
    requires lines { length lines.old ≡ line-table }
    requires dest { Small (box_of dest) }
    ensures low { Low tale.new }
    ensures told { TellsFilter spot within dest pixmap panel (answer_number result)
        tale.old lines.old tale.new lines.new }
{
    let bbox = filter_box(spot.viewport, within.clip, dest);
    if draws_nothing(pixmap, bbox) {
        return Ok(());
    }
    if is_out_of_ids(*tale) {
        return Err(Refusal::Ids);
    }
    if MOST_ATTRS <= tale.paints || MOST_FILTERS <= tale.filters {
        return Err(Refusal::FullAttrs);
    }
    let covered = is_met(
        dest,
        spot.row + spot.viewport.y0 / TILE_HEIGHT,
        spot.tile + spot.viewport.x0 / TILE_WIDTH,
    );
    let kept = is_met(bbox, spot.row, spot.tile);
    let line = Line {
        layer: false,
        attribute: tale.paints,
        standing: standing_of(covered, kept, true, false),
        alpha: None,
        nesting: within.open,
        panel,
    };
    put_line(lines, tale.paints + tale.layers, line);
    tale.next += 1;
    tale.paints += 1;
    tale.filters += 1;
    if is_in_row(bbox, spot.row) {
        tale.levels = within.open;
    }
    Ok(())
}
