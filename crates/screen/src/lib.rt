//! A screen: its numbers by value, its words lent (rule 1; bucketer.rs, CommandBucketer). `reset` is a public call; the others are parts of the calls. `lent`
//! has the lent words, `layers` the table of open layers.
#![tactic(auto)]

ghost use Rattle.std.specs.Prelude.{◌≡◌, ◌≤◌, ◌<◌, ◌+◌};
ghost use Rattle.sizes.specs.Sizes.{most-rows, most-layers, most-attrs, most-filters, last-id};
ghost use Rattle.sizes.specs.Widths.{bucket-tiles};
ghost use Rattle.sizes.specs.Refusals.{answer_number};
ghost use Rattle.rules.specs.Boxes.{rows_of, buckets-of};
ghost use Rattle.rules.specs.Walk.{good-room};
ghost use Rattle.rect.specs.Rects.{box_of};
ghost use Rattle.screen.specs.declared.Screen.{Screen};
ghost use Rattle.screen.specs.Screens.{in-tiles, good_clip, good_screen, frame, counted, opened, closed, fresh-screen};
ghost use Rattle.screen.specs.Judging.{good-rooms, judged};
ghost use Rattle.screen.specs.Tables.{answer_of, reset_to};
ghost use Rattle.screen.specs.Lent.{tables_in, whole, SameLent};
ghost use Rattle.screen.specs.ReadBack.{LayerReadBack, OthersStay, PatternReadBack};

use crate::lent::judge_reset;
use rect::{Mode, Rect};
use sizes::answers::Refusal;
use sizes::width::Width;
use sizes::{
    LAST_ID, MOST_ATTRS, MOST_FILTERS, MOST_LAYERS, MOST_ROOM, ROW, SCENE_END, TILE_HEIGHT,
    TILE_WIDTH,
};

pub mod layers;
pub mod lent;

pub use crate::lent::{Lengths, Lent};

/// A screen's numbers, without the words that are lent with it. Any numbers are a `Screen`; `is_good` judges them.
#[derive(Clone, Copy, Debug, PartialEq, Eq)]
pub struct Screen {
    // In pixels of the scene, at the edges of tiles.
    pub viewport: Rect,
    // The clip box in force, in pixels, local to the viewport: the innermost layer's, else the whole viewport's.
    pub clip_bbox: Rect,
    // A row has room for C render commands ..
    pub c: u32,
    // .. and D depth fills.
    pub d: u32,
    // The id that the next step takes, from 1 up to LAST_ID + 1, with which none is left.
    pub next_draw_id: u32,
    // How many of the lent tables are in use: paint attributes, layer attributes, filter paints, open layers.
    pub paint_attrs: u32,
    pub layer_attrs: u32,
    pub filter_paints: u32,
    pub layers: u32,
    // Painting has begun, and no building step or writing run was done since.
    pub painting: bool,
    // How wide a depth bucket is.
    pub width: Width,
}

/// What a screen is asked to be, besides its viewport: room for C render commands and D depth fills in each row, how the viewport is read, and how wide a depth
/// bucket is.
#[derive(Clone, Copy, Debug, PartialEq, Eq)]
pub struct Setup {
    pub c: u32,
    pub d: u32,
    pub mode: Mode,
    pub width: Width,
}

/// Whether n can be C or D: from 1 to 1,024.
pub fn is_good_room(n: u32) -> bool
    ensures { result ≡ good-room n }
{
    (1..=MOST_ROOM).contains(&n)
}

// Multiples of 4.
fn is_in_tiles(b: Rect) -> bool
    ensures { result ≡ in-tiles (box_of b) }
{
    b.x0 % TILE_WIDTH == 0
        && b.y0 % TILE_HEIGHT == 0
        && b.x1 % TILE_WIDTH == 0
        && b.y1 % TILE_HEIGHT == 0
}

// The clip box in force: the whole viewport with no layer open, else in whole tiles and within the viewport at its ends.
#[tactic(auto, unfolding(crate::specs::Screens::good_clip))]
fn is_good_clip(viewport: Rect, clip: Rect, layers: u32) -> bool
    ensures { result ≡ good_clip (box_of viewport) (box_of clip) layers }
{
    if layers == 0 {
        return clip == viewport.whole();
    }
    is_in_tiles(clip)
        && clip.x0 <= SCENE_END
        && clip.y0 <= SCENE_END
        && clip.x1 <= viewport.width()
        && clip.y1 <= viewport.height()
}

impl Screen {
    /// Rows of tiles: a row is 4 pixels high.
    pub fn rows(self) -> usize
        ensures { result ≡ rows_of (box_of self.viewport) }
    {
        (self.viewport.height() / TILE_HEIGHT) as usize
    }

    /// Depth buckets in a row, rounded up.
    pub fn buckets(self) -> usize
        ensures { result ≡ buckets-of (bucket-tiles self.width) (box_of self.viewport) }
    {
        self.width.above(self.viewport.width() / TILE_WIDTH) as usize
    }

    /// The screen's own numbers (answer 4), but for viewport, C and D, which are judged before.
    #[tactic(auto, unfolding(crate::specs::Screens::good_screen))]
    pub fn is_good(self) -> bool
        ensures { result ≡ good_screen self }
    {
        (1..=LAST_ID + 1).contains(&self.next_draw_id)
            && self.paint_attrs <= MOST_ATTRS
            && self.layer_attrs <= MOST_ATTRS
            && self.filter_paints <= MOST_FILTERS
            && self.layers <= MOST_LAYERS
            && is_good_clip(self.viewport, self.clip_bbox, self.layers)
    }

    /// A fill takes an id, and `more` paint attributes; it ends painting.
    pub fn take_fill(&mut self, more: u32)
        requires ids { self.old.next_draw_id ≤ last-id }
        requires attrs { (self.old.paint_attrs ≤ most-attrs) × (more ≤ 1) }
        ensures { self.new ≡ counted self.old (self.old.next_draw_id + 1) (self.old.paint_attrs + more) self.old.layer_attrs self.old.filter_paints }
    {
        self.next_draw_id += 1;
        self.paint_attrs += more;
        self.painting = false;
    }

    /// A filter fill takes `more` of each, an id, a paint attribute and a filter paint; it ends painting.
    pub fn take_filter(&mut self, more: u32)
        requires ids { (self.old.next_draw_id ≤ last-id + 1) × (more ≤ 1) }
        requires attrs { (self.old.paint_attrs ≤ most-attrs) × (self.old.filter_paints ≤ most-filters) }
        ensures { self.new
            ≡ counted self.old (self.old.next_draw_id + more) (self.old.paint_attrs + more) self.old.layer_attrs (self.old.filter_paints + more) }
    {
        self.next_draw_id += more;
        self.paint_attrs += more;
        self.filter_paints += more;
        self.painting = false;
    }

    /// One more layer is open, whose own box is given; it ends painting.
    pub fn open_layer(&mut self, bbox: Rect)
        requires { self.old.layers ≤ most-layers }
        ensures { self.new ≡ opened self.old bbox }
    {
        self.clip_bbox = bbox;
        self.layers += 1;
        self.painting = false;
    }

    /// One layer less is open, whose parent's box is given; it took an id and a layer attribute, and it ends painting.
    pub fn close_layer(&mut self, parent: Rect)
        requires some { 1 ≤ self.old.layers }
        requires ids { self.old.next_draw_id ≤ last-id }
        requires attrs { self.old.layer_attrs < most-attrs }
        ensures { self.new ≡ closed self.old parent }
    {
        self.clip_bbox = parent;
        self.next_draw_id += 1;
        self.layer_attrs += 1;
        self.layers -= 1;
        self.painting = false;
    }
}

/// C and D are in range, and the arenas of render commands and depth fills are lent exactly for n rows (answer 1).
pub fn is_good_rooms(n: usize, c: u32, d: u32, render_cmds: usize, depth_cmds: usize) -> bool
    requires { n ≤ most-rows }
    ensures { result ≡ good-rooms n c d render_cmds depth_cmds }
{
    is_good_room(c)
        && is_good_room(d)
        && render_cmds == n * (4 * c as usize)
        && depth_cmds == n * (2 * d as usize)
}

/// 2, then 1, then 4: the screen's numbers, and how many words of records, render commands and depth fills are lent.
#[tactic(auto, unfolding(crate::specs::Judging::judged))]
pub fn judge_screen(
    screen: Screen,
    rows: usize,
    render_cmds: usize,
    depth_cmds: usize,
) -> Result<(), Refusal>
    ensures { answer_number result ≡ judged screen rows render_cmds depth_cmds }
{
    if !screen.viewport.is_good_viewport() {
        return Err(Refusal::BadViewport);
    }
    let n = screen.rows();
    if !is_good_rooms(n, screen.c, screen.d, render_cmds, depth_cmds) {
        return Err(Refusal::BadArena);
    }
    if rows != n * ROW || !screen.is_good() {
        return Err(Refusal::BadRecord);
    }
    Ok(())
}

/// Rule 1: a screen of a good viewport with nothing on it: next id 1, no layer, no attribute, painting not begun.
pub fn fresh(viewport: Rect, c: u32, d: u32, width: Width) -> Screen
    ensures { result ≡ fresh-screen (record { viewport = box_of viewport; c = c; d = d; width = width }) }
{
    Screen {
        viewport,
        clip_bbox: viewport.whole(),
        c,
        d,
        next_draw_id: 1,
        paint_attrs: 0,
        layer_attrs: 0,
        filter_paints: 0,
        layers: 0,
        painting: false,
        width,
    }
}

/// Rule 1 (bucketer.rs, reset): the screen of a viewport in a setup. 2 for the viewport, then 1 for C, D or an arena, then 4 for another table. Refused, every
/// word stays.
pub fn reset(viewport: Rect, setup: Setup, lent: &mut Lent<'_>) -> Result<Screen, Refusal>
    ensures same { SameLent lent.old lent.new }
    ensures reset { (screen : Screen) → answer_of screen result (tables_in lent.new) ≡ reset_to (frame setup viewport) (whole screen lent.old) }
{
    let seen = viewport.viewport_in(setup.mode)?;
    let screen = fresh(seen, setup.c, setup.d, setup.width);
    judge_reset(screen, lent.lengths())?;
    lent.clear(screen);
    Ok(screen)
}

/// An open layer is read back from the words that are stored of it. It does nothing: what it promises is a theorem.
pub fn open_layers_keep()
    ensures read { LayerReadBack }
    ensures pattern { PatternReadBack }
    ensures others { OthersStay }
{}
