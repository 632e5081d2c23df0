//! A screen's numbers as a host holds them, and what a host asks a screen to be. Laid out as in C.
ghost use Rattle.std.specs.Prelude.{◌≡◌};
ghost use Rattle.sizes.specs.Refusals.{answer_number};
ghost use Rattle.rect.specs.Rects.{mode_of};
ghost use Rattle.host.specs.State.{rect, width-at, width_word, screen-words, screen-at, screen_of, before_4};
ghost use Rattle.host.specs.Held.{words_in, rect_of};
ghost use Rattle.host.specs.OneLook.{PushLeaves, FilterLeaves, FillLeaves};
ghost use Rattle.host.specs.Asked.{mode-at, asked_setup, asked-for};

use rect::{Mode, Rect};
use screen::{Screen, Setup};
use sizes::answers::{Refusal, answer_number};
use sizes::width::Width;

/// A box, in pixels.
#[repr(C)]
#[derive(Clone, Copy, Debug, PartialEq, Eq)]
pub struct Corners {
    pub x0: u32,
    pub y0: u32,
    pub x1: u32,
    pub y1: u32,
}

/// A screen's own numbers: the viewport, the clip box, C, D, the next id, the counts of paint attributes, layer attributes, filter paints and open layers, 1 if
/// painting has begun, else 0, and a bucket's width: 0 for 128 pixels, 1 for 64, 2 for 256. So numbers that are all 0 are a screen's.
#[repr(C)]
#[derive(Clone, Copy, Debug, PartialEq, Eq)]
pub struct StateWords {
    pub viewport: Corners,
    pub clip: Corners,
    pub c: u32,
    pub d: u32,
    pub next_draw_id: u32,
    pub paint_attrs: u32,
    pub layer_attrs: u32,
    pub filter_paints: u32,
    pub layers: u32,
    pub painting: u32,
    pub width: u32,
}

/// What a screen is asked to be, as a host gives it: room for C render commands and D depth fills in each row; the mode is 0 exact, 1 snapping; the width of a
/// bucket is 64, 128 or 256 pixels. Laid out as in C.
#[repr(C)]
#[derive(Clone, Copy, Debug, PartialEq, Eq)]
pub struct SetupWords {
    pub c: u32,
    pub d: u32,
    pub mode: u32,
    pub width: u32,
}

/// The mode of a word that is 0 or 1.
pub fn mode_at(word: u32) -> Mode
    ensures { mode_of result ≡ mode-at word }
{
    match word {
        1 => Mode::Snapping,
        _ => Mode::Exact,
    }
}

/// What such words ask for. BadViewport, 2, where the width is none; BadRecord, 4, where the mode is none. C and D are judged by the call.
#[tactic(auto, unfolding(crate::specs::Asked::asked_setup))]
pub fn read_setup(words: SetupWords) -> Result<Setup, Refusal>
    ensures { asked-for result ≡ asked_setup words }
{
    let width = Width::try_from(words.width)?;
    if 1 < words.mode {
        return Err(Refusal::BadRecord);
    }
    Ok(Setup {
        c: words.c,
        d: words.d,
        mode: mode_at(words.mode),
        width,
    })
}

/// The width of a screen's word that is 0, 1 or 2.
pub fn width_at(word: u32) -> Width
    ensures { result ≡ width-at word }
{
    match word {
        1 => Width::W64,
        2 => Width::W256,
        _ => Width::W128,
    }
}

// The word of a width.
fn width_word(width: Width) -> u32
    ensures { result ≡ width_word width }
{
    match width {
        Width::W64 => 1,
        Width::W128 => 0,
        Width::W256 => 2,
    }
}

/// The box of four words.
pub fn box_of(c: Corners) -> Rect
    ensures { result ≡ rect c.x0 c.y0 c.x1 c.y1 }
{
    Rect {
        x0: c.x0,
        y0: c.y0,
        x1: c.x1,
        y1: c.y1,
    }
}

/// The screen of such words, whatever the last two: painting has begun only if its word is 1, a width that is none is 128 pixels.
pub fn screen_at(state: &StateWords) -> Screen
    ensures { result ≡ screen-at (words_in state.now) }
{
    Screen {
        viewport: box_of(state.viewport),
        clip_bbox: box_of(state.clip),
        c: state.c,
        d: state.d,
        next_draw_id: state.next_draw_id,
        paint_attrs: state.paint_attrs,
        layer_attrs: state.layer_attrs,
        filter_paints: state.filter_paints,
        layers: state.layers,
        painting: state.painting == 1,
        width: width_at(state.width),
    }
}

/// The screen of a state, if the last two words are good and what else the host gives is.
#[tactic(auto, unfolding(crate::specs::State::screen_of))]
pub fn screen_of(state: &StateWords, good: bool) -> Option<Screen>
    ensures { result ≡ screen_of good (words_in state.now) }
{
    if !good || 1 < state.painting || 2 < state.width {
        return None;
    }
    Some(screen_at(state))
}

/// The number of a call whose words are refused by 4 at the border, by what the call's own judge says: 1, 2 and 3 come first.
#[tactic(auto, unfolding(crate::specs::State::before_4))]
pub fn before_4<T: Copy>(judged: Result<T, Refusal>) -> u32
    ensures { result ≡ before_4 (answer_number judged) }
{
    match judged {
        Err(refusal @ (Refusal::BadArena | Refusal::BadViewport | Refusal::BadForm)) => {
            refusal.number()
        }
        _ => Refusal::BadRecord.number(),
    }
}

// The words of a box.
fn corners_of(b: Rect) -> Corners
    ensures { rect_of result ≡ b }
{
    Corners {
        x0: b.x0,
        y0: b.y0,
        x1: b.x1,
        y1: b.y1,
    }
}

/// The words of a screen.
pub fn put_screen(state: &mut StateWords, screen: Screen)
    ensures { words_in state.new ≡ screen-words screen }
{
    *state = StateWords {
        viewport: corners_of(screen.viewport),
        clip: corners_of(screen.clip_bbox),
        c: screen.c,
        d: screen.d,
        next_draw_id: screen.next_draw_id,
        paint_attrs: screen.paint_attrs,
        layer_attrs: screen.layer_attrs,
        filter_paints: screen.filter_paints,
        layers: screen.layers,
        painting: u32::from(screen.painting),
        width: width_word(screen.width),
    };
}

/// What a call gave: its screen's words are stored, and its number given.
pub fn leave(state: &mut StateWords, screen: Screen, done: Result<(), Refusal>) -> u32
    ensures { (result ≡ answer_number done) × (words_in state.new ≡ screen-words screen) }
{
    put_screen(state, screen);
    answer_number(done)
}

/// What a push gave: the words that a push changes are stored, and its number given.
pub fn leave_push(state: &mut StateWords, screen: Screen, done: Result<(), Refusal>) -> u32
    requires { PushLeaves state.old screen }
    ensures { (result ≡ answer_number done) × (words_in state.new ≡ screen-words screen) }
{
    state.clip = corners_of(screen.clip_bbox);
    state.layers = screen.layers;
    state.painting = u32::from(screen.painting);
    answer_number(done)
}

/// .. a filter fill.
pub fn leave_filter(state: &mut StateWords, screen: Screen, done: Result<(), Refusal>) -> u32
    requires { FilterLeaves state.old screen }
    ensures { (result ≡ answer_number done) × (words_in state.new ≡ screen-words screen) }
{
    state.next_draw_id = screen.next_draw_id;
    state.paint_attrs = screen.paint_attrs;
    state.filter_paints = screen.filter_paints;
    state.painting = u32::from(screen.painting);
    answer_number(done)
}

/// .. a fill.
pub fn leave_fill(state: &mut StateWords, screen: Screen, done: Result<(), Refusal>) -> u32
    requires { FillLeaves state.old screen }
    ensures { (result ≡ answer_number done) × (words_in state.new ≡ screen-words screen) }
{
    state.next_draw_id = screen.next_draw_id;
    state.paint_attrs = screen.paint_attrs;
    state.painting = u32::from(screen.painting);
    answer_number(done)
}
