//! Judging a fill's segments and the rows that they come to (BadRecord, BadOrder, FullRow and FullDepth), in one pass, before anything is done: by a sure look,
//! and exactly where that look is not sure. WAY is `fill_one`'s: it changes nothing of what is said.
ghost use Rattle.std.specs.Prelude.{◌≡◌, true, false, cond, ◌-◌, ◌≤◌, ◌<◌, length};
ghost use Rattle.sizes.specs.Sizes.{most-layers, most-room, row-size};
ghost use Rattle.rules.specs.Answers.{Done};
ghost use Rattle.rules.specs.Segments.{good-segment, judge-segments};
ghost use Rattle.span.specs.Spans.{tiles};
ghost use Rattle.sizes.specs.Widths.{bucket-tiles};
ghost use Rattle.row.specs.Counts.{counts};
ghost use Rattle.segments.specs.Segs.{segment-of, segs};
ghost use Rattle.row.specs.Cmds.{Short};
ghost use Rattle.row.specs.Room.{at-hand, Low, Told};
ghost use Rattle.fill.specs.Tallies.{edge_count, added, marked_by, limits_of, hand_cuts, Took, Listed};
ghost use Rattle.fill.specs.Filling.{cut_for};
ghost use Rattle.fill.specs.Named.{RecordsOf, InList};
ghost use Rattle.fill.specs.Sure.{Few, Roomed, RoomAt, number_in};

use crate::rows::{FillJob, KNOWN};
use row::acts::is_unsplit;
use row::judge::is_good_row;
use row::part;
use row::room::{Counts, Fault, Hand, Limits, NO_ROW, ONE_COMMAND, turn_to};
use segments::{NO_SEGMENT, Segment, place, segment_at};
use sizes::answers::Refusal;
use sizes::width::Width;
use sizes::{DEPTHS, LEVELS, RENDERS, ROW, SEGMENT, TILE_ALPHAS, TILE_END, TILE_HEIGHT};
use span::Stretch;

// One piece, if there are tiles from first to end.
fn edge(first: u32, end: u32) -> usize
    ensures { result ≡ edge_count first «end» }
{
    if first < end { 1 } else { 0 }
}

// What a stretch becomes, on a row that has its layers.
fn added_by(eligible: bool, stretch: Stretch, width: Width) -> Counts
    requires { Short (tiles stretch.tiles) }
    ensures { counts result.renders result.depths 0 ≡ added (bucket-tiles width) eligible (tiles stretch.tiles) stretch.alpha }
{
    if is_unsplit(eligible, stretch.alpha) {
        return ONE_COMMAND;
    }
    let low = width.above(stretch.tiles.first);
    let high = width.below(stretch.tiles.end);
    if high <= low {
        return ONE_COMMAND;
    }
    // A piece on each side where the stretch is not at a bucket's edge.
    Counts {
        renders: edge(0, width.within(stretch.tiles.first))
            + edge(0, width.within(stretch.tiles.end)),
        depths: 1,
    }
}

// BadOrder is found from here on, unless the order is kept.
fn mark(hand: Hand, follows: bool) -> Hand
    ensures { at-hand result ≡ marked_by (at-hand hand) follows }
{
    Hand {
        renders: hand.renders,
        depths: hand.depths,
        row: hand.row,
        found: if follows { hand.found } else { Fault::BadOrder },
    }
}

// What the rows of a fill have room for.
fn limits_of(job: FillJob) -> Limits
    ensures { result ≡ limits_of job }
{
    Limits {
        c: job.c,
        d: job.d,
        layers: job.layers,
        once: 0,
    }
}

// One more good segment: BadRecord where it gets on a row whose record is bad.
#[inline(never)]
fn judge_segment(rows: &[u32], job: FillJob, hand: Hand, segment: Segment) -> Result<Hand, Refusal>
    requires rows { RecordsOf job rows.now }
    requires segment { good-segment (segment-of segment) ≡ true }
    requires hand { Low (at-hand hand) }
    ensures { Took (hand_cuts job rows.now (at-hand hand) (cut_for job (segment-of segment))) result }
{
    let Some(placed) = place(segment, job.scene) else {
        return Ok(hand);
    };
    let limits = limits_of(job);
    let more = added_by(job.eligible, placed.stretch, job.width);
    if hand.row == placed.row {
        return Ok(hand.add(limits, more));
    }
    let turned = turn_to(rows, limits, hand.found, placed.row)?;
    Ok(turned.add(limits, more))
}

// One by one: BadRecord for a bad segment or for the bad record of a row that gets one, at once; else BadOrder, FullRow or FullDepth, if found. Out of line:
// in line its numbers take the registers of the loop that draws.
#[inline(never)]
fn judge_each(
    rows: &[u32],
    list: &[u32],
    start: usize,
    end: usize,
    job: FillJob,
) -> Result<Fault, Refusal>
    requires rows { RecordsOf job rows.now }
    requires range { start ≤ «end» }
    requires list { InList list.now «end» }
    ensures { Told (number_in job rows.now list.now start «end») result }
{
    let mut last = NO_SEGMENT;
    let mut hand = NO_ROW;
    for i in start..end {
        let next = segment_at(list, i);
        if !next.is_good() {
            return Err(Refusal::BadRecord);
        }
        hand = judge_segment(rows, job, mark(hand, last.precedes(next)), next)?;
        last = next;
    }
    Ok(hand.found)
}

// The row's record is good, with room for the most that so many segments come to: a command each, and for each of the `split` solid ones that
// may be split a command and a depth fill more.
fn has_room(state: &[u32], job: FillJob, segments: usize, split: usize) -> bool
    requires words { length state.now ≡ row-size }
    requires room { (job.c ≤ most-room) × (job.d ≤ most-room) }
    requires layers { job.layers ≤ most-layers }
    requires few { Few segments split }
    ensures { result ≡ true → Roomed job state.now segments split }
{
    if !is_good_row(state, job.c, job.d, job.layers) {
        return false;
    }
    state[DEPTHS] as usize + split <= job.d as usize
        && state[RENDERS] as usize + job.layers as usize + segments + split
            <= job.c as usize + state[LEVELS] as usize
}

/// The same of a row of the scene, by its number there; of any other row nothing is asked.
pub fn has_room_at(rows: &[u32], job: FillJob, row: u32, segments: usize, split: usize) -> bool
    requires rows { RecordsOf job rows.now }
    requires few { Few segments split }
    ensures { result ≡ true → RoomAt job rows.now row segments split }
{
    if job.scene.rows.end <= row || row < job.scene.rows.first {
        return true;
    }
    let state = part(rows, ROW, (row - job.scene.y / TILE_HEIGHT) as usize);
    has_room(state, job, segments, split)
}

// Yes only where the exact number is 0: rows rise, each segment is good and in order, and each row has room for the most that its segments come
// to, looked at once for all of them.
fn is_sure<const WAY: u32>(
    rows: &[u32],
    list: &[u32],
    start: usize,
    end: usize,
    job: FillJob,
) -> bool
    requires rows { RecordsOf job rows.now }
    requires range { start < «end» }
    requires list { InList list.now «end» }
    ensures { result ≡ true → number_in job rows.now list.now start «end» ≡ 0 }
{
    let weight: usize = if job.eligible { 1 } else { 0 };
    let mut row = list[SEGMENT * start + 1];
    let mut from = start;
    let mut edge: u32 = 0;
    let mut split: usize = 0;
    let mut i = start;
    while i < end {
        let at = SEGMENT * i;
        let here = list[at + 1];
        if here != row {
            if here < row || !has_room_at(rows, job, row, i - from, split) {
                return false;
            }
            row = here;
            from = i;
            edge = 0;
            split = 0;
        }
        let first = list[at + 2];
        if first < edge {
            return false;
        }
        edge = list[at + 3];
        if edge <= first || TILE_END < edge {
            return false;
        }
        let kind = list[at];
        if kind == 0 {
            if list[at + 4] != 0 {
                return false;
            }
            split += weight;
        } else {
            if kind != 1 || u32::MAX - TILE_ALPHAS * (edge - first) < list[at + 4] {
                return false;
            }
        }
        i += 1;
    }
    row < TILE_END && has_room_at(rows, job, row, i - from, split)
}

// The same of a run of so many segments on one row, whatever they are: each may be split, if any may.
fn has_room_for(rows: &[u32], job: FillJob, row: u32, segments: usize) -> bool
    requires rows { RecordsOf job rows.now }
    requires few { segments ≤ 4611686018427387904 }
    ensures { result ≡ true → RoomAt job rows.now row segments (cond job.eligible segments 0) }
{
    let split = if job.eligible { segments } else { 0 };
    has_room_at(rows, job, row, segments, split)
}

// Of a list that is good and in order, yes only where the number is 0: each row has room for the most that its segments come to, looked at once for all of them.
fn has_rooms(rows: &[u32], list: &[u32], start: usize, end: usize, job: FillJob) -> bool
    requires rows { RecordsOf job rows.now }
    requires range { start < «end» }
    requires list { InList list.now «end» }
    requires judged { judge-segments false (segs list.now start («end» - start)) ≡ Done }
    ensures { result ≡ true → number_in job rows.now list.now start «end» ≡ 0 }
{
    let mut row = list[SEGMENT * start + 1];
    let mut from = start;
    let mut i = start + 1;
    while i < end {
        let here = list[SEGMENT * i + 1];
        if here != row {
            if !has_room_for(rows, job, row, i - from) {
                return false;
            }
            row = here;
            from = i;
        }
        i += 1;
    }
    has_room_for(rows, job, row, i - from)
}

// The sure look of a WAY: at all that is not known of its list.
fn is_sure_by<const WAY: u32>(
    rows: &[u32],
    list: &[u32],
    start: usize,
    end: usize,
    job: FillJob,
) -> bool
    requires rows { RecordsOf job rows.now }
    requires range { start < «end» }
    requires list { InList list.now «end» }
    requires known { WAY ≡ KNOWN → judge-segments false (segs list.now start («end» - start)) ≡ Done }
    ensures { result ≡ true → number_in job rows.now list.now start «end» ≡ 0 }
{
    if WAY == KNOWN {
        has_rooms(rows, list, start, end, job)
    } else {
        is_sure::<WAY>(rows, list, start, end, job)
    }
}

/// The segments from start to end of a list: BadRecord for a bad one or for the bad record of a row that gets one, then BadOrder, at once; else what was found
/// of the rows, whether one passes C, or D.
pub fn judge_list<const WAY: u32>(
    rows: &[u32],
    list: &[u32],
    start: usize,
    end: usize,
    job: FillJob,
) -> Result<Fault, Refusal>
    requires rows { RecordsOf job rows.now }
    requires range { start ≤ «end» }
    requires list { InList list.now «end» }
    requires known { WAY ≡ KNOWN → judge-segments false (segs list.now start («end» - start)) ≡ Done }
    ensures { Listed (number_in job rows.now list.now start «end») result }
{
    if start < end && is_sure_by::<WAY>(rows, list, start, end, job) {
        return Ok(Fault::Nothing);
    }
    match judge_each(rows, list, start, end, job)? {
        Fault::BadOrder => Err(Refusal::BadOrder),
        fault => Ok(fault),
    }
}
