//! One look at a state's words where they stand, and at how much is lent, without a branch where there need be none: yes only where the exact judge says 0.
//! Where it says no, that judge is asked, and says which number. Most bounds are one less than the judge's, where that makes them a power of 2: numbers below it are
//! tested together. Parts of the calls.
ghost use Rattle.std.specs.Prelude.{◌≡◌, ◌≤◌, ◌+◌, ◌-◌, ◌*◌, ◌/◌, true, ◌&&◌, eqb, IfSome};
ghost use Rattle.sizes.specs.Sizes.{most-rows, most-room};
ghost use Rattle.sizes.specs.Widths.{bucket-tiles};
ghost use Rattle.rules.specs.Boxes.{box};
ghost use Rattle.rules.specs.Minima.{minima-room};
ghost use Rattle.rect.specs.Rects.{same-box};
ghost use Rattle.host.specs.State.{width-at};
ghost use Rattle.host.specs.OneLook.{corner-box, Side, Viewed, Counted, clip-in, rows-long, Sure, Built, BuiltFor, PushSure, FilterSure, FillSure};

use crate::layer::{FilterWords, PropsWords};
use crate::state::{Corners, StateWords};
use depth::minima_room;
use paint::Stored;
use screen::Lent;
use sizes::width::Width;
use sizes::{
    FILTER_TABLE, LAST_ID, LAYER_TABLE, MOST_ATTRS, MOST_FILTERS, MOST_HEIGHT, MOST_LAYERS,
    MOST_ROOM, MOST_WIDTH, OPACITIES, OPEN_TABLE, PAINT, PAINT_TABLE, ROW, SCENE_END, SEGMENT,
    TILE_HEIGHT, TILE_WIDTH,
};

// From a start to an end; a large number where the end lies before a start of the scene.
#[inline(always)]
fn side(start: u32, end: u32) -> u32
    ensures { Side start «end» result }
{
    end.wrapping_sub(start)
}

// The viewport rules, for a box so wide and high whose ends are not the scene's.
#[inline(always)]
fn is_view(v: Corners, w: u32, h: u32) -> bool
    requires { Side v.x0 v.x1 w × Side v.y0 v.y1 h }
    ensures { result ≡ true → Viewed v w h }
{
    ((v.x0 % TILE_WIDTH == 0) & (v.x0 < SCENE_END))
        & ((v.x1 % TILE_WIDTH == 0) & (v.x1 < SCENE_END))
        & ((v.y0 % TILE_HEIGHT == 0) & (v.y0 < SCENE_END))
        & ((v.y1 % TILE_HEIGHT == 0) & (v.y1 < SCENE_END))
        & (w <= MOST_WIDTH)
        & (h <= MOST_HEIGHT)
}

// A box that has its corner at 0, 0.
#[inline(always)]
fn is_whole(b: Corners, w: u32, h: u32) -> bool
    ensures { result ≡ same-box (corner-box b) (box 0 0 w h) }
{
    (b.x0 == 0) & (b.y0 == 0) & (b.x1 == w) & (b.y1 == h)
}

// The clip box in force, in a viewport so wide and high.
#[inline(always)]
fn is_clip(state: &StateWords, w: u32, h: u32) -> bool
    ensures { result ≡ clip-in state.now w h }
{
    let b = state.clip;
    if state.layers == 0 {
        return is_whole(b, w, h);
    }
    (b.x0 % TILE_WIDTH == 0)
        & (b.y0 % TILE_HEIGHT == 0)
        & (b.x1 % TILE_WIDTH == 0)
        & (b.y1 % TILE_HEIGHT == 0)
        & ((b.x0 <= SCENE_END) & (b.y0 <= SCENE_END) & (b.x1 <= w) & (b.y1 <= h))
}

// Room in a row, the next id and the counts.
#[inline(always)]
fn is_counts(state: &StateWords) -> bool
    ensures { result ≡ true → Counted state.now }
{
    (state.c.wrapping_sub(1) < MOST_ROOM)
        & (state.d.wrapping_sub(1) < MOST_ROOM)
        & (state.paint_attrs < MOST_ATTRS)
        & (state.layer_attrs < MOST_ATTRS)
        & (state.next_draw_id.wrapping_sub(1) < LAST_ID)
        & (state.filter_paints < MOST_FILTERS)
}

// The words of n rows have their lengths.
#[inline(always)]
fn is_long(n: usize, state: &StateWords, rows: usize, render_cmds: usize, depth_cmds: usize) -> bool
    requires few { n ≤ most-rows }
    requires rooms { (state.now.c ≤ most-room) × (state.now.d ≤ most-room) }
    ensures { result ≡ rows-long n state.now rows render_cmds depth_cmds }
{
    (render_cmds == n * (4 * state.c as usize))
        & (depth_cmds == n * (2 * state.d as usize))
        & (rows == n * ROW)
}

// The words of a canvas have their lengths, for n rows of b buckets.
#[inline(always)]
fn is_canvas_long(n: usize, b: usize, depth: usize, minima: usize, painting: usize) -> bool
    requires { (n ≤ most-rows) × (b ≤ 64) }
    ensures { result ≡ (eqb depth (n * b) && eqb minima (n * minima-room b) && eqb painting (n * 2)) }
{
    (depth == n * b) & (minima == n * minima_room(b)) & (painting == n * 2)
}

// The buckets of so many tiles at a word's width, if it is one.
#[inline(always)]
fn buckets_of(width: u32, tiles: u32) -> Option<usize>
    requires { tiles ≤ 1073741823 }
    ensures { IfSome result (λ b. (width ≤ 2) × (b ≡ (tiles + (bucket-tiles (width-at width) - 1)) / bucket-tiles (width-at width))) }
{
    match width {
        0 => Some(Width::W128.above(tiles) as usize),
        1 => Some(Width::W64.above(tiles) as usize),
        2 => Some(Width::W256.above(tiles) as usize),
        _ => None,
    }
}

/// The buckets of a row, at most 64, only where a painting step would not be refused for its screen, its row or what is lent; else 65.
#[inline(always)]
pub fn sure_buckets(
    state: &StateWords,
    row: usize,
    stored: &Stored<'_>,
    depth: usize,
    minima: usize,
    painting: usize,
) -> usize
    ensures { result ≤ 64 → Sure state.now row stored.now depth minima painting result }
{
    let w = side(state.viewport.x0, state.viewport.x1);
    let h = side(state.viewport.y0, state.viewport.y1);
    let words = is_view(state.viewport, w, h)
        & is_counts(state)
        & ((state.layers == 0) & (state.painting == 1))
        & is_whole(state.clip, w, h);
    if !words {
        return 65;
    }
    let n = (h / TILE_HEIGHT) as usize;
    let Some(b) = buckets_of(state.width, w / TILE_WIDTH) else {
        return 65;
    };
    if b == 0 {
        return 65;
    }
    let long = (row < n)
        & is_long(
            n,
            state,
            stored.rows.len(),
            stored.render_cmds.len(),
            stored.depth_cmds.len(),
        )
        & is_canvas_long(n, b, depth, minima, painting)
        & ((stored.paint_attrs.len() == PAINT_TABLE) & (stored.layer_attrs.len() == LAYER_TABLE));
    if !long {
        return 65;
    }
    b
}

// Yes only where a building step would not be refused for its screen and the words of its rows.
#[inline(always)]
fn is_sure(state: &StateWords, rows: usize, render_cmds: usize, depth_cmds: usize) -> bool
    ensures { result ≡ true → Built state.now rows render_cmds depth_cmds }
{
    let w = side(state.viewport.x0, state.viewport.x1);
    let h = side(state.viewport.y0, state.viewport.y1);
    let words = is_view(state.viewport, w, h)
        & is_counts(state)
        & ((state.layers <= MOST_LAYERS) & (state.painting <= 1) & (state.width <= 2));
    if !words {
        return false;
    }
    let n = (h / TILE_HEIGHT) as usize;
    is_clip(state, w, h) & is_long(n, state, rows, render_cmds, depth_cmds)
}

// The same of what is lent.
#[inline(always)]
fn is_built(state: &StateWords, tables: &Lent<'_>) -> bool
    ensures { result ≡ true → BuiltFor state.now tables.now }
{
    is_sure(
        state,
        tables.rows.len(),
        tables.render_cmds.len(),
        tables.depth_cmds.len(),
    )
}

/// Yes only where a push would not be refused for its screen, what it is lent and the flag of its clip.
#[inline(always)]
pub fn is_push_sure(state: &StateWords, tables: &Lent<'_>, props: &PropsWords) -> bool
    ensures { result ≡ true → PushSure state.now tables.now props.now }
{
    is_built(state, tables)
        & (tables.layers.len() == OPEN_TABLE)
        & (tables.opacities.len() == OPACITIES)
        & (props.flag <= 1)
}

/// .. a filter fill, by the flag of its picture.
#[inline(always)]
pub fn is_filter_sure(state: &StateWords, tables: &Lent<'_>, filter: &FilterWords) -> bool
    ensures { result ≡ true → FilterSure state.now tables.now filter.now }
{
    is_built(state, tables)
        & (tables.paint_attrs.len() == PAINT_TABLE)
        & (tables.filter_paints.len() == FILTER_TABLE)
        & (filter.has_pixmap <= 1)
}

/// .. a fill, by its lists.
#[inline(always)]
#[tactic(auto, unfolding(fill::specs::Fills::first_number))]
pub fn is_fill_sure(state: &StateWords, tables: &Lent<'_>, paints: &[u32], segments: &[u32]) -> bool
    ensures { result ≡ true → FillSure state.now tables.now paints.now segments.now }
{
    is_built(state, tables)
        & (tables.paint_attrs.len() == PAINT_TABLE)
        & (paints.len() % PAINT == 0)
        & (segments.len() % SEGMENT == 0)
}
