//! A fill of one segment by itself: one look at all that it reads, then done. Where the look is not sure, nothing is done, and the fill goes its general way.
ghost use Rattle.std.specs.Prelude.{◌≡◌, ◌+◌, true, false, IfSome};
ghost use Rattle.rules.specs.Answers.{answer};
ghost use Rattle.row.specs.Rows.{SameRows};
ghost use Rattle.fill.specs.Fills.{job_of, first-of-lent, fill_number, filled};
ghost use Rattle.fill.specs.Named.{fill_lent_of, RecordsOf, InList, OnlyFilled};
ghost use Rattle.fill.specs.Sure.{number_in};

use crate::judge::has_room_at;
use crate::rows::{FillJob, ONE, fill_alone};
use crate::{attrs_of, is_good_fill, job_of};
use cmd::attrs::put_paint_attrs;
use inputs::Draw;
use row::Rows;
use screen::Screen;
use sizes::{LAST_ID, MOST_ATTRS, SEGMENT, TILE_ALPHAS, TILE_END};

// Yes only where segment i is good, and its row has room for the most that it comes to.
fn is_sure(rows: &[u32], list: &[u32], i: usize, job: FillJob) -> bool
    requires rows { RecordsOf job rows.now }
    requires list { InList list.now (i + 1) }
    ensures { result ≡ true → number_in job rows.now list.now i (i + 1) ≡ 0 }
{
    let at = SEGMENT * i;
    let row = list[at + 1];
    let first = list[at + 2];
    let end = list[at + 3];
    if TILE_END <= row || end <= first || TILE_END < end {
        return false;
    }
    if list[at] == 0 {
        if list[at + 4] != 0 {
            return false;
        }
        return has_room_at(rows, job, row, 1, if job.eligible { 1 } else { 0 });
    }
    if list[at] != 1 || u32::MAX - TILE_ALPHAS * (end - first) < list[at + 4] {
        return false;
    }
    has_room_at(rows, job, row, 1, 0)
}

// What the one segment of a draw needs, only where the fill's number is 0.
fn sure_job(
    screen: Screen,
    rows: &Rows<'_>,
    paint_attrs: &[u32],
    paints: &[u32],
    segments: &[u32],
    draw: Draw,
) -> Option<FillJob>
    requires judged { first-of-lent (fill_lent_of screen rows.now paint_attrs.now) paints.now segments.now ≡ 0 }
    requires one { draw.start + 1 ≡ draw.«end» }
    ensures { IfSome result (λ j. (j ≡ job_of screen paints.now draw)
        × (fill_number (fill_lent_of screen rows.now paint_attrs.now) paints.now segments.now draw ≡ 0)) }
{
    if !is_good_fill(paints, segments, draw) {
        return None;
    }
    let job = job_of(screen, paints, draw);
    if LAST_ID < screen.next_draw_id || MOST_ATTRS <= screen.paint_attrs {
        return None;
    }
    if !is_sure(rows.state, segments, draw.start, job) {
        return None;
    }
    Some(job)
}

/// `fill`, of what its judge of the screen and of all lengths has passed, for a draw of one segment: done, or nothing is.
pub fn fill_single(
    screen: &mut Screen,
    rows: &mut Rows<'_>,
    paint_attrs: &mut [u32],
    paints: &[u32],
    segments: &[u32],
    draw: Draw,
) -> bool
    requires judged { first-of-lent (fill_lent_of screen.old rows.old paint_attrs.old) paints.now segments.now ≡ 0 }
    requires one { draw.start + 1 ≡ draw.«end» }
    ensures same { SameRows rows.old rows.new }
    ensures left { OnlyFilled screen.old screen.new }
    ensures done { result ≡ true → answer 0 (fill_lent_of screen.new rows.new paint_attrs.new)
        ≡ filled (fill_lent_of screen.old rows.old paint_attrs.old) paints.now segments.now draw }
    ensures stays { result ≡ false → fill_lent_of screen.new rows.new paint_attrs.new ≡ fill_lent_of screen.old rows.old paint_attrs.old }
{
    let Some(job) = sure_job(*screen, rows, paint_attrs, paints, segments, draw) else {
        return false;
    };
    let attrs = attrs_of(*screen, draw);
    put_paint_attrs(paint_attrs, screen.paint_attrs as usize, attrs);
    fill_alone::<ONE>(rows, segments, draw.start, job);
    screen.take_fill(1);
    true
}
