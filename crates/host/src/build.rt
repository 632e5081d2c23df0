//! The calls of reset, of the building steps and of a recording. A state has a screen's numbers; `screen::Lent` has the eleven tables.
ghost use Rattle.std.specs.Prelude.{◌≡◌, ◌+◌, true, false};
ghost use Rattle.rules.specs.Answers.{answer};
ghost use Rattle.screen.specs.Tables.{Tables};
ghost use Rattle.screen.specs.Tables.{answer_of};
ghost use Rattle.screen.specs.Lent.{tables_in, SameLent};
ghost use Rattle.host.specs.Asked.{told};
ghost use Rattle.host.specs.Held.{words_in, rect_of, draw_in, props_of};
ghost use Rattle.host.specs.Lent.{pop_in, FillKeeps, PushKeeps, PopKeeps, FilterKeeps};
ghost use Rattle.host.specs.Called.{fill_on, fill_out, push_on, push_out, filter_on, filter_out};
ghost use Rattle.host.specs.OneLook.{FillSure};
ghost use Rattle.host.specs.Building.{tables-left, reset_call, used_call, recording_call, pop_call, picture};

use crate::border::{refuse_build, refuse_recording, refuse_reset, refuse_setup, refuse_used};
use crate::editions::read_file;
use crate::state::{
    Corners, SetupWords, StateWords, box_of, leave, leave_fill, put_screen, read_setup, screen_at,
    screen_of,
};
use crate::sure::is_fill_sure;
use cmd::blend::Blend;
use fill::single::fill_single;
use fill::{fill, fill_judged};
use inputs::{Draw, Filter};
use layers::{FilterFill, filter_fill, push_layer};
use pop::pop_layer;
use reuse::reset_used;
use row::Rows;
use screen::layers::{Clip, LayerProps, Layers};
use screen::{Lent, Screen, reset};
use sizes::answers::Refusal;
use walk::bucket_recording;
use walk::read::{float_of, pattern_of};

/// What is drawn: segments start to end of a list, with the paint at a place of a list; the thread is that of their alpha values; mask is a handle, or 0 for
/// none. Laid out as in C.
#[repr(C)]
#[derive(Clone, Copy, Debug, PartialEq, Eq)]
pub struct DrawWords {
    pub thread: u32,
    pub paint: u32,
    pub start: usize,
    pub end: usize,
    pub mix: u32,
    pub compose: u32,
    pub mask: u32,
    pub panel: u32,
}

impl DrawWords {
    // The same, as a fill takes it.
    fn asked(&self) -> Draw
        ensures { result ≡ draw_in self.now }
    {
        Draw {
            thread: self.thread,
            start: self.start,
            end: self.end,
            paint: self.paint,
            blend: Blend {
                mix: self.mix,
                compose: self.compose,
            },
            mask: self.mask,
            panel: self.panel,
        }
    }

    // Whether one segment is asked for.
    fn is_single(&self) -> bool
        ensures { result ≡ true → self.now.start + 1 ≡ self.now.«end» }
    {
        self.start < self.end && self.end - self.start == 1
    }
}

// The fresh screen's words, or the same screen's, and the number.
fn put_reset(state: &mut StateWords, screen: Screen, done: Result<Screen, Refusal>) -> u32
    ensures { (t : Tables) → answer result (words_in state.new, t) ≡ tables-left (answer_of screen done t) }
{
    match done {
        Ok(fresh) => {
            put_screen(state, fresh);
            0
        }
        Err(refusal) => {
            put_screen(state, screen);
            refusal.number()
        }
    }
}

/// Rule 1: a fresh screen of a viewport, in pixels, in a setup. Words that ask for no setup are refused at once, by 2 or 4.
#[unsafe(no_mangle)]
#[tactic(auto, using(crate::proofs::HostAsked::reset_unasked))]
pub extern "C" fn coarse_reset(
    state: &mut StateWords,
    viewport: Corners,
    setup: SetupWords,
    tables: &mut Lent<'_>,
) -> u32
    ensures same { SameLent tables.old tables.new }
    ensures reset { answer result (words_in state.new, tables_in tables.new)
        ≡ reset_call (rect_of viewport) setup (words_in state.old) (tables_in tables.old) }
{
    let asked = match read_setup(setup) {
        Ok(asked) => asked,
        Err(refusal) => return refusal.number(),
    };
    let viewport = box_of(viewport);
    let Some(screen) = screen_of(state, true) else {
        return refuse_reset(state, viewport, asked, tables);
    };
    let done = reset(viewport, asked, tables);
    put_reset(state, screen, done)
}

/// Rule 1, for a screen that a reset and done calls made: its own viewport and setup anew, with only what is used cleared.
#[unsafe(no_mangle)]
#[tactic(auto, using(crate::proofs::Unheld::used_unheld))]
pub extern "C" fn coarse_reset_used(state: &mut StateWords, tables: &mut Lent<'_>) -> u32
    ensures same { SameLent tables.old tables.new }
    ensures reset { answer result (words_in state.new, tables_in tables.new) ≡ used_call (words_in state.old) (tables_in tables.old) }
{
    let Some(mut screen) = screen_of(state, true) else {
        return refuse_used(state, tables);
    };
    let done = reset_used(&mut screen, tables);
    leave(state, screen, done)
}

/// Rule 2: the words of a recording file of an edition, 1 or 2, in a setup. Another number is refused by 3; then come 3 for the file's form, and 2 or 4 for
/// words that ask for no setup.
#[unsafe(no_mangle)]
#[tactic(auto, using(crate::proofs::HostAsked::recording_untold))]
pub extern "C" fn coarse_bucket_recording(
    state: &mut StateWords,
    edition: u32,
    file: &[u32],
    setup: SetupWords,
    tables: &mut Lent<'_>,
) -> u32
    ensures same { SameLent tables.old tables.new }
    ensures recorded { answer result (words_in state.new, tables_in tables.new)
        ≡ recording_call (told edition file.now) setup (words_in state.old) (tables_in tables.old) }
{
    let file = match read_file(edition, file) {
        Ok(file) => file,
        Err(refusal) => return refusal.number(),
    };
    let asked = match read_setup(setup) {
        Ok(asked) => asked,
        Err(refusal) => return refuse_setup(file, refusal),
    };
    let Some(mut screen) = screen_of(state, true) else {
        return refuse_recording(state, file, asked, tables);
    };
    let done = bucket_recording(&mut screen, file, asked, tables);
    leave(state, screen, done)
}

// Where the one look is not sure.
#[inline(never)]
#[cold]
#[tactic(auto, using(crate::proofs::Unheld::fill_unheld))]
fn judged_fill(
    state: &mut StateWords,
    tables: &mut Lent<'_>,
    paints: &[u32],
    segments: &[u32],
    draw: &DrawWords,
) -> u32
    ensures same { SameLent tables.old tables.new }
    ensures kept { FillKeeps tables.old tables.new }
    ensures filled { answer result (fill_out state.new tables.new) ≡ fill_on paints.now segments.now draw.now state.old tables.old }
{
    let mut rows = Rows {
        state: tables.rows,
        render_cmds: tables.render_cmds,
        depth_cmds: tables.depth_cmds,
    };
    let Some(mut screen) = screen_of(state, true) else {
        return refuse_build(state, &rows);
    };
    let draw = draw.asked();
    let done = fill(
        &mut screen,
        &mut rows,
        tables.paint_attrs,
        paints,
        segments,
        draw,
    );
    leave(state, screen, done)
}

// Where it is sure.
#[inline(never)]
fn sure_fill(
    state: &mut StateWords,
    tables: &mut Lent<'_>,
    paints: &[u32],
    segments: &[u32],
    draw: &DrawWords,
) -> u32
    requires { FillSure state.old tables.old paints.now segments.now }
    ensures same { SameLent tables.old tables.new }
    ensures kept { FillKeeps tables.old tables.new }
    ensures filled { answer result (fill_out state.new tables.new) ≡ fill_on paints.now segments.now draw.now state.old tables.old }
{
    let mut rows = Rows {
        state: tables.rows,
        render_cmds: tables.render_cmds,
        depth_cmds: tables.depth_cmds,
    };
    let mut screen = screen_at(state);
    let draw = draw.asked();
    let done = fill_judged(
        &mut screen,
        &mut rows,
        tables.paint_attrs,
        paints,
        segments,
        draw,
    );
    leave_fill(state, screen, done)
}

// .. and one segment is asked for: done, or nothing is.
fn single_fill(
    state: &mut StateWords,
    tables: &mut Lent<'_>,
    paints: &[u32],
    segments: &[u32],
    draw: &DrawWords,
) -> bool
    requires sure { FillSure state.old tables.old paints.now segments.now }
    requires one { draw.now.start + 1 ≡ draw.now.«end» }
    ensures same { SameLent tables.old tables.new }
    ensures kept { FillKeeps tables.old tables.new }
    ensures filled { result ≡ true → answer 0 (fill_out state.new tables.new) ≡ fill_on paints.now segments.now draw.now state.old tables.old }
    ensures left { result ≡ false → fill_out state.new tables.new ≡ fill_out state.old tables.old }
{
    let mut rows = Rows {
        state: tables.rows,
        render_cmds: tables.render_cmds,
        depth_cmds: tables.depth_cmds,
    };
    let mut screen = screen_at(state);
    let draw = draw.asked();
    if !fill_single(
        &mut screen,
        &mut rows,
        tables.paint_attrs,
        paints,
        segments,
        draw,
    ) {
        return false;
    }
    leave_fill(state, screen, Ok(()));
    true
}

/// Rules 3 to 7: segments, five words each, painted with a paint of a paint list, four words each. Refused as `fill`.
#[unsafe(no_mangle)]
pub extern "C" fn coarse_fill(
    state: &mut StateWords,
    tables: &mut Lent<'_>,
    paints: &[u32],
    segments: &[u32],
    draw: &DrawWords,
) -> u32
    ensures same { SameLent tables.old tables.new }
    ensures kept { FillKeeps tables.old tables.new }
    ensures filled { answer result (fill_out state.new tables.new) ≡ fill_on paints.now segments.now draw.now state.old tables.old }
{
    if !is_fill_sure(state, tables, paints, segments) {
        return judged_fill(state, tables, paints, segments, draw);
    }
    if !draw.is_single() {
        return sure_fill(state, tables, paints, segments, draw);
    }
    if single_fill(state, tables, paints, segments, draw) {
        return 0;
    }
    sure_fill(state, tables, paints, segments, draw)
}
