//! The rows of a closing layer's box, judged (answers 4 and 10). Parts: each has a `requires`, which its callers have judged. The layer that closes is the
//! innermost of `screen.layers`. A row is touched if it has that layer's PushBuf.
ghost use Rattle.std.specs.Prelude.{◌≡◌, true, cond, ◌+◌, ◌*◌, ◌≤◌, ◌<◌, length};
ghost use Rattle.sizes.specs.Sizes.{most-layers, most-room, most-rows, row-size};
ghost use Rattle.rules.specs.Lists.{range, every};
ghost use Rattle.rules.specs.Answers.{FullRow};
ghost use Rattle.rules.specs.Segments.{good-segment};
ghost use Rattle.segments.specs.Segs.{origin, bounds, Starts};
ghost use Rattle.row.specs.Words.{words};
ghost use Rattle.row.specs.Room.{fault_number, record-at, at-hand, Found, Told};
ghost use Rattle.pop.specs.Closing.{row_of, good-pop, full-pop, pops-number, touched-word, pop-limits, ShallowRow, Clean, Counted};
ghost use Rattle.layers.specs.Band.{screen_rows};
ghost use Rattle.pop.specs.Named.{touched, WholeRows, InScreen, RowOf, clip_segments, clip_cuts, segment_cut, good_band, overfull, GoodAt};

use row::judge::is_good_row;
use row::room::{Counts, Fault, Hand, Limits, NO_ROW, ONE_COMMAND, load};
use row::{Rows, part};
use screen::Screen;
use segments::{Scene, place, segment_at};
use sizes::answers::Refusal;
use sizes::{LEVEL, LEVEL_BASE, LEVELS, ROW};
use std::ops::Range;

/// The segments of the layer's clip, from start to end of a list, and the scene that they are cut to: the parent's box.
#[derive(Clone, Copy, Debug, PartialEq, Eq)]
pub struct ClipPath {
    pub start: usize,
    pub end: usize,
    pub scene: Scene,
}

// What the rows of a closing layer have room for; each touched one gets a PopBuf.
fn limits_of(screen: Screen) -> Limits
    ensures { result ≡ pop-limits screen }
{
    Limits {
        c: screen.c,
        d: screen.d,
        layers: screen.layers,
        once: 1,
    }
}

// A row of the layer's box, by its words (answer 4): its record, and that its innermost level's PushBuf is one.
fn is_good_pop(
    state: &[u32],
    render_cmds: &[u32],
    depth_cmds: &[u32],
    c: u32,
    d: u32,
    open: u32,
) -> bool
    requires state { length state.now ≡ row-size }
    requires render_cmds { length render_cmds.now ≡ 4 * c }
    requires some { 1 ≤ «open» }
    requires deep { «open» ≤ most-layers }
    ensures { result ≡ good-pop c d «open» (words state.now render_cmds.now depth_cmds.now) }
{
    let levels = state[LEVELS];
    if levels != open {
        return levels < open;
    }
    is_good_row(state, c, d, open)
        && render_cmds[4 * state[LEVEL_BASE + LEVEL * open as usize] as usize] == 5
}

// Row r of the layer's box (answer 4).
fn judge_pop_row(screen: Screen, rows: &Rows<'_>, r: usize) -> bool
    requires whole { WholeRows screen rows.now }
    requires row { RowOf screen r }
    requires some { 1 ≤ screen.layers }
    requires deep { screen.layers ≤ most-layers }
    ensures { result ≡ good-pop screen.c screen.d screen.layers (row_of (screen_rows screen rows.now) r) }
{
    is_good_pop(
        part(rows.state, ROW, r),
        part(rows.render_cmds, 4 * screen.c as usize, r),
        part(rows.depth_cmds, 2 * screen.d as usize, r),
        screen.c,
        screen.d,
        screen.layers,
    )
}

// Row r, whose words are good, if it is touched: its PopBuf and `more` commands (answer 10).
fn count_pop_row(screen: Screen, rows: &[u32], found: Fault, r: usize, more: usize) -> Fault
    requires small { r < most-rows }
    requires there { r * row-size + row-size ≤ length rows.now }
    requires more { more ≤ most-room }
    requires found { Found (fault_number found) }
    requires shallow { ShallowRow screen.d screen.layers (record-at rows.now r) }
    ensures { fault_number result ≡ cond (full-pop screen.c screen.layers (more + 1) (record-at rows.now r)) FullRow (fault_number found) }
{
    let state = part(rows, ROW, r);
    if state[LEVELS] != screen.layers {
        return found;
    }
    let limits = limits_of(screen);
    let added = Counts {
        renders: more,
        depths: 0,
    };
    load(state, limits, found, r as u32)
        .add(limits, added)
        .found
}

/// The rows of the band: BadRecord for one of them, at once; else whether the PopBuf of a touched one and `more` commands pass C somewhere.
#[inline(always)]
pub fn judge_pop_rows(
    screen: Screen,
    rows: &Rows<'_>,
    band: &Range<usize>,
    more: usize,
) -> Result<Fault, Refusal>
    requires whole { WholeRows screen rows.now }
    requires band { InScreen screen band.now }
    requires some { 1 ≤ screen.layers }
    requires deep { screen.layers ≤ most-layers }
    requires more { more ≤ most-room }
    ensures { Told (pops-number screen.c screen.d screen.layers (more + 1) (screen_rows screen rows.now) (range band.now.start band.now.«end»)) result }
{
    let mut found = Fault::Nothing;
    for r in band.start..band.end {
        if !judge_pop_row(screen, rows, r) {
            return Err(Refusal::BadRecord);
        }
        found = count_pop_row(screen, rows.state, found, r, more);
    }
    Ok(found)
}

/// Row r is one of the band, and has the innermost layer's PushBuf.
pub fn is_touched(rows: &Rows<'_>, r: usize, band: &Range<usize>, open: u32) -> bool
    requires small { band.now.«end» ≤ most-rows }
    requires there { band.now.«end» * row-size ≤ length rows.now.state.now }
    ensures { result ≡ touched-word band.now.start band.now.«end» «open» rows.now.state.now r }
{
    band.contains(&r) && rows.state[r * ROW + LEVELS] == open
}

// Segment i, if it is cut to something in a touched row: one LayerFill more there.
fn count_segment(
    screen: Screen,
    rows: &Rows<'_>,
    list: &[u32],
    i: usize,
    scene: Scene,
    band: &Range<usize>,
    hand: Hand,
) -> Hand
    requires whole { WholeRows screen rows.now }
    requires band { InScreen screen band.now }
    requires segment { GoodAt list.now i }
    requires starts { Starts (origin scene) (bounds scene) }
    requires good { good_band screen band.now rows.now ≡ true }
    requires clean { Clean screen.d (at-hand hand) }
    ensures { Counted screen.c screen.d (touched screen band.now rows.now) (screen_rows screen rows.now)
        (at-hand hand) (segment_cut scene list.now i) (at-hand result) }
{
    let Some(placed) = place(segment_at(list, i), scene) else {
        return hand;
    };
    let r = placed.row as usize;
    if !is_touched(rows, r, band, screen.layers) {
        return hand;
    }
    let limits = limits_of(screen);
    if hand.row == placed.row {
        return hand.add(limits, ONE_COMMAND);
    }
    load(part(rows.state, ROW, r), limits, hand.found, placed.row).add(limits, ONE_COMMAND)
}

/// With a clip: whether a touched row would get more than C commands (answer 10), the LayerFills of the clip's segments and each row's PopBuf after them.
#[inline(always)]
pub fn is_full_clip(
    screen: Screen,
    rows: &Rows<'_>,
    list: &[u32],
    clip: ClipPath,
    band: &Range<usize>,
) -> bool
    requires whole { WholeRows screen rows.now }
    requires band { InScreen screen band.now }
    requires ordered { clip.start ≤ clip.«end» }
    requires listed { 5 * clip.«end» ≤ length list.now }
    requires segments { every good-segment (clip_segments clip list.now) ≡ true }
    requires starts { Starts (origin clip.scene) (bounds clip.scene) }
    requires good { good_band screen band.now rows.now ≡ true }
    ensures { result ≡ overfull screen band.now rows.now (clip_cuts clip list.now) }
{
    let mut hand = NO_ROW;
    for i in clip.start..clip.end {
        hand = count_segment(screen, rows, list, i, clip.scene, band, hand);
        if hand.found.answer().is_err() {
            return true;
        }
    }
    false
}
