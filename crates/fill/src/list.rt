//! Many fills, one after another (rules 3 to 7): a range of a list of draws, lent as words. `fill_list` is a public call; `fill_known` is the walk's.
ghost use Rattle.std.specs.Prelude.{◌≡◌, ◌-◌, ◌*◌, ◌≤◌, length};
ghost use Rattle.sizes.specs.Editions.{draw-size};
ghost use Rattle.row.specs.Rows.{SameRows};
ghost use Rattle.fill.specs.Named.{fill_lent_of, asked, draws-of, fills-of, KnownDraws};
ghost use Rattle.fill.specs.Lists.{fills_in_order, good-draws, told};

use crate::rows::{KNOWN, LISTED};
use crate::{fill_one, judge_lent};
use inputs::draws::draw_at;
use row::Rows;
use screen::Screen;
use sizes::answers::Refusal;
use sizes::edition::Edition;

/// Draws start to end of a list that is lent as words, seven a draw in edition one, eight in edition two. Laid out as in C.
#[repr(C)]
#[derive(Clone, Copy)]
pub struct Draws<'a> {
    pub words: &'a [u32],
    pub start: usize,
    pub end: usize,
}

impl Draws<'_> {
    /// How many draws are asked for; none where start is past end.
    pub fn asked(self) -> usize
        ensures { result ≡ asked self.entry }
    {
        self.end.saturating_sub(self.start)
    }

    /// Whole draws of edition two, and a range of them.
    pub fn is_good(self) -> bool
        ensures { result ≡ good-draws self.entry.words.now self.entry.start self.entry.«end» }
    {
        let size = Edition::Two.draw();
        self.words.len() % size == 0
            && self.start <= self.end
            && self.end <= self.words.len() / size
    }
}

/// Where a list of fills stopped: how many fills are done, and why the next is refused.
#[derive(Clone, Copy, Debug, PartialEq, Eq)]
pub struct Stopped {
    pub done: usize,
    pub refusal: Refusal,
}

// The fills of draws that are in the list, in order, up to the first that is refused. The screen, the tables and the lists' lengths are judged once: a done fill
// leaves them good. WAY is `fill_one`'s. Out of line, and the edition behind a reference: known when compiled, it costs the loops over segments registers.
#[inline(never)]
fn fill_turns<const WAY: u32>(
    screen: &mut Screen,
    rows: &mut Rows<'_>,
    paint_attrs: &mut [u32],
    paints: &[u32],
    segments: &[u32],
    draws: Draws<'_>,
    edition: &Edition,
) -> Result<(), Stopped>
    requires order { draws.start ≤ draws.«end» }
    requires within { draw-size edition.now * draws.«end» ≤ length draws.words.now }
    requires known { WAY ≡ KNOWN → KnownDraws paints.now segments.now edition.now draws }
    ensures same { SameRows rows.old rows.new }
    ensures filled { told (asked draws.entry) result (fill_lent_of screen.new rows.new paint_attrs.new)
        ≡ fills_in_order paints.now segments.now (draws-of edition.now draws.entry) (fill_lent_of screen.old rows.old paint_attrs.old) }
{
    if draws.start == draws.end {
        return Ok(());
    }
    if let Err(refusal) = judge_lent(*screen, rows, paint_attrs, paints, segments) {
        return Err(Stopped { done: 0, refusal });
    }
    // A copy, whose numbers the loop keeps in registers.
    let mut own = *screen;
    for i in draws.start..draws.end {
        let draw = draw_at(draws.words, *edition, edition.draw() * i);
        if let Err(refusal) = fill_one::<WAY>(&mut own, rows, paint_attrs, paints, segments, draw) {
            *screen = own;
            return Err(Stopped {
                done: i - draws.start,
                refusal,
            });
        }
    }
    *screen = own;
    Ok(())
}

/// The fills of draws that are in the list, in order, up to the first that is refused. The screen, the tables and the lists are judged once: a done fill
/// leaves them good.
pub fn fill_each(
    screen: &mut Screen,
    rows: &mut Rows<'_>,
    paint_attrs: &mut [u32],
    paints: &[u32],
    segments: &[u32],
    draws: Draws<'_>,
    edition: Edition,
) -> Result<(), Stopped>
    requires order { draws.start ≤ draws.«end» }
    requires within { draw-size edition * draws.«end» ≤ length draws.words.now }
    ensures same { SameRows rows.old rows.new }
    ensures filled { told (asked draws.entry) result (fill_lent_of screen.new rows.new paint_attrs.new)
        ≡ fills_in_order paints.now segments.now (draws-of edition draws.entry) (fill_lent_of screen.old rows.old paint_attrs.old) }
{
    fill_turns::<LISTED>(screen, rows, paint_attrs, paints, segments, draws, &edition)
}

/// The same, where each draw is known to be good, and its segments good and in order, as in a judged recording: only room is looked for, and ids and attributes.
pub fn fill_known(
    screen: &mut Screen,
    rows: &mut Rows<'_>,
    paint_attrs: &mut [u32],
    paints: &[u32],
    segments: &[u32],
    draws: Draws<'_>,
    edition: Edition,
) -> Result<(), Stopped>
    requires order { draws.start ≤ draws.«end» }
    requires within { draw-size edition * draws.«end» ≤ length draws.words.now }
    requires known { KnownDraws paints.now segments.now edition draws }
    ensures same { SameRows rows.old rows.new }
    ensures filled { told (asked draws.entry) result (fill_lent_of screen.new rows.new paint_attrs.new)
        ≡ fills_in_order paints.now segments.now (draws-of edition draws.entry) (fill_lent_of screen.old rows.old paint_attrs.old) }
{
    fill_turns::<KNOWN>(screen, rows, paint_attrs, paints, segments, draws, &edition)
}

/// Rules 3 to 7 for each of a range of draws, eight words each, in order. BadRecord, with nothing judged or done, where the words are no whole draws or the
/// range is none of them; else as the first fill that is refused: the fills before it are done, it and those behind it change nothing. An empty range is done.
#[tactic(auto, unfolding(crate::specs::Lists::fills_listed))]
pub fn fill_list(
    screen: &mut Screen,
    rows: &mut Rows<'_>,
    paint_attrs: &mut [u32],
    paints: &[u32],
    segments: &[u32],
    draws: Draws<'_>,
) -> Result<(), Stopped>
    ensures same { SameRows rows.old rows.new }
    ensures filled { told (asked draws.entry) result (fill_lent_of screen.new rows.new paint_attrs.new)
        ≡ fills-of paints.now segments.now draws.entry (fill_lent_of screen.old rows.old paint_attrs.old) }
{
    if !draws.is_good() {
        return Err(Stopped {
            done: 0,
            refusal: Refusal::BadRecord,
        });
    }
    fill_each(
        screen,
        rows,
        paint_attrs,
        paints,
        segments,
        draws,
        Edition::Two,
    )
}
