//! The rows of a closing layer's box, closed (rules 9 and 10): the closing LayerFills, the PopBufs. Parts: each has a `requires`, which its callers have
//! judged. The layer that closes is the innermost of `screen.layers`.
ghost use Rattle.std.specs.Prelude.{◌≡◌, ◌*◌, ◌≤◌, ◌<◌, length, map};
ghost use Rattle.sizes.specs.Sizes.{most-rows, row-size};
ghost use Rattle.rules.specs.Plans.{on, pop};
ghost use Rattle.span.specs.Spans.{tiles};
ghost use Rattle.segments.specs.Segs.{origin, bounds, Starts};
ghost use Rattle.row.specs.Cmds.{Short};
ghost use Rattle.row.specs.Rows.{SameRows};
ghost use Rattle.pop.specs.Closing.{Poppable, Each, touched-word};
ghost use Rattle.layers.specs.Band.{screen_rows};
ghost use Rattle.pop.specs.Named.{touched, if_touched, closed_by, WholeRows, InScreen, RowOf, GoodAt, ClipReady, clip_puts, segment_puts, span_puts, RoomFor, FillableAt, OfBand, Among};

use crate::rows::ClipPath;
use cmd::command::Fill;
use row::Rows;
use row::act::{Close, Pop, on_row};
use screen::Screen;
use segments::{Scene, place, segment_at};
use sizes::{LEVELS, ROW, TILE_HEIGHT};
use span::TileSpan;
use std::ops::Range;

// Without a clip: a LayerFill of the layer's span on row r, if it is touched.
#[inline(never)]
fn close_span(screen: Screen, rows: &mut Rows<'_>, r: usize, span: TileSpan)
    requires whole { WholeRows screen rows.old }
    requires row { RowOf screen r }
    requires short { Short (tiles span) }
    requires room { FillableAt screen span rows.old (if_touched screen r rows.old) }
    ensures same { SameRows rows.old rows.new }
    ensures rows { screen_rows screen rows.new
        ≡ closed_by screen (span_puts screen span (if_touched screen r rows.old)) (screen_rows screen rows.old) }
{
    if rows.state[r * ROW + LEVELS] != screen.layers {
        return;
    }
    let fill = Fill {
        span,
        alpha: None,
        attrs_idx: screen.layer_attrs,
    };
    on_row(
        rows.state,
        rows.render_cmds,
        rows.depth_cmds,
        screen.c,
        screen.d,
        r,
        Close { fill },
    );
}

/// Rule 9 without a clip: a LayerFill of the layer's span of tiles on each touched row of the band.
pub fn close_spans(screen: Screen, rows: &mut Rows<'_>, band: &Range<usize>, span: TileSpan)
    requires whole { WholeRows screen rows.old }
    requires band { InScreen screen band.now }
    requires short { Short (tiles span) }
    requires room { FillableAt screen span rows.old (touched screen band.now rows.old) }
    ensures same { SameRows rows.old rows.new }
    ensures rows { screen_rows screen rows.new
        ≡ closed_by screen (span_puts screen span (touched screen band.now rows.old)) (screen_rows screen rows.old) }
{
    for r in band.start..band.end {
        close_span(screen, rows, r, span);
    }
}

// A PopBuf on row r, if it is touched.
#[inline(always)]
fn pop_row(screen: Screen, rows: &mut Rows<'_>, r: usize)
    requires whole { WholeRows screen rows.old }
    requires row { RowOf screen r }
    requires room { Each Poppable (screen_rows screen rows.old) (if_touched screen r rows.old) }
    ensures same { SameRows rows.old rows.new }
    ensures rows { screen_rows screen rows.new
        ≡ closed_by screen (map (on pop) (if_touched screen r rows.old)) (screen_rows screen rows.old) }
{
    if rows.state[r * ROW + LEVELS] != screen.layers {
        return;
    }
    on_row(
        rows.state,
        rows.render_cmds,
        rows.depth_cmds,
        screen.c,
        screen.d,
        r,
        Pop,
    );
}

/// Rule 10: a PopBuf on each touched row of the band.
#[inline(always)]
pub fn pop_rows(screen: Screen, rows: &mut Rows<'_>, band: &Range<usize>)
    requires whole { WholeRows screen rows.old }
    requires band { InScreen screen band.now }
    requires room { Each Poppable (screen_rows screen rows.old) (touched screen band.now rows.old) }
    ensures same { SameRows rows.old rows.new }
    ensures rows { screen_rows screen rows.new
        ≡ closed_by screen (map (on pop) (touched screen band.now rows.old)) (screen_rows screen rows.old) }
{
    for r in band.start..band.end {
        pop_row(screen, rows, r);
    }
}

// The scene with those of its rows alone that are the band's.
#[inline(always)]
fn scene_in(scene: Scene, band: &Range<usize>) -> Scene
    requires small { band.now.«end» ≤ most-rows }
    ensures { OfBand scene band.now result }
{
    let top = scene.y / TILE_HEIGHT;
    let start = band.start.min(band.end) as u32;
    Scene {
        x: scene.x,
        y: scene.y,
        columns: scene.columns,
        rows: TileSpan {
            first: scene.rows.first.max(top + start),
            end: scene.rows.end.min(top + band.end as u32),
        },
    }
}

// Row r, one of the band, has the innermost layer's PushBuf.
fn is_touched_row(rows: &Rows<'_>, r: usize, band: &Range<usize>, open: u32) -> bool
    requires small { band.now.«end» ≤ most-rows }
    requires there { band.now.«end» * row-size ≤ length rows.now.state.now }
    requires among { (band.now.start ≤ r) × (r < band.now.«end») }
    ensures { result ≡ touched-word band.now.start band.now.«end» «open» rows.now.state.now r }
{
    rows.state[r * ROW + LEVELS] == open
}

// With a clip: the LayerFill of segment i, if it is cut to something in a touched row. The scene's rows are the band's.
#[inline(always)]
fn close_segment(
    screen: Screen,
    rows: &mut Rows<'_>,
    list: &[u32],
    i: usize,
    scene: Scene,
    band: &Range<usize>,
)
    requires whole { WholeRows screen rows.old }
    requires band { InScreen screen band.now }
    requires among { Among scene band.now }
    requires segment { GoodAt list.now i }
    requires starts { Starts (origin scene) (bounds scene) }
    requires room { RoomFor screen (segment_puts screen band.now scene list.now i rows.old) (screen_rows screen rows.old) }
    ensures same { SameRows rows.old rows.new }
    ensures rows { screen_rows screen rows.new
        ≡ closed_by screen (segment_puts screen band.now scene list.now i rows.old) (screen_rows screen rows.old) }
{
    let Some(placed) = place(segment_at(list, i), scene) else {
        return;
    };
    let r = placed.row as usize;
    if !is_touched_row(rows, r, band, screen.layers) {
        return;
    }
    let fill = Fill {
        span: placed.stretch.tiles,
        alpha: placed.stretch.alpha,
        attrs_idx: screen.layer_attrs,
    };
    on_row(
        rows.state,
        rows.render_cmds,
        rows.depth_cmds,
        screen.c,
        screen.d,
        r,
        Close { fill },
    );
}

// With a clip whose scene's rows are the band's: the LayerFills of its segments.
#[inline(always)]
fn close_list(
    screen: Screen,
    rows: &mut Rows<'_>,
    list: &[u32],
    clip: ClipPath,
    band: &Range<usize>,
)
    requires ready { ClipReady screen band.now clip list.now rows.old }
    requires among { Among clip.scene band.now }
    ensures same { SameRows rows.old rows.new }
    ensures rows { screen_rows screen rows.new
        ≡ closed_by screen (clip_puts screen band.now clip list.now rows.old) (screen_rows screen rows.old) }
{
    for i in clip.start..clip.end {
        close_segment(screen, rows, list, i, clip.scene, band);
    }
}

/// Rule 9 with a clip: the LayerFills of the clip's segments, cut to the parent's box, in touched rows of the band.
#[inline(always)]
pub fn close_segments(
    screen: Screen,
    rows: &mut Rows<'_>,
    list: &[u32],
    clip: ClipPath,
    band: &Range<usize>,
)
    requires { ClipReady screen band.now clip list.now rows.old }
    ensures same { SameRows rows.old rows.new }
    ensures rows { screen_rows screen rows.new
        ≡ closed_by screen (clip_puts screen band.now clip list.now rows.old) (screen_rows screen rows.old) }
{
    let own = ClipPath {
        start: clip.start,
        end: clip.end,
        scene: scene_in(clip.scene, band),
    };
    close_list(screen, rows, list, own, band);
}
