//! The doing half of a fill (rules 3 to 7; bucketer.rs, generate and push_fill), over a whole screen's words. Each function has a `requires`, which `fill` has
//! judged. WAY is `fill_one`'s: it changes nothing of what is done.
ghost use Rattle.std.specs.Prelude.{◌≡◌, ◌≤◌, ◌<◌, ◌+◌, true};
ghost use Rattle.sizes.specs.Sizes.{most-layers};
ghost use Rattle.span.specs.Spans.{tiles};
ghost use Rattle.row.specs.Words.{words};
ghost use Rattle.row.specs.Rows.{all-held, SameRows};
ghost use Rattle.row.specs.Cmds.{Short};
ghost use Rattle.row.specs.Arena.{lay, count-rows};
ghost use Rattle.fill.specs.Filling.{draws, one-put, done, run_of, OnRow, Fits, FillReady, RunReady};
ghost use Rattle.fill.specs.Named.{job_rows, held_rows, rows_after, RoomFor, GoodAt, NotSolid, Splits};

use row::act::{RowAct, on_row};
use row::acts::{ensure_row_layers, is_unsplit, push_fill};
use row::{Row, Rows, place_of};
use segments::{Scene, place, segment_at};
use sizes::width::Width;
use sizes::{LEVELS, SEGMENT};
use span::Stretch;

/// A WAY of a fill: by itself.
pub const ALONE: u32 = 0;

/// .. one of a list.
pub const LISTED: u32 = 1;

/// .. of one segment (`single`).
pub const ONE: u32 = 2;

/// .. one of a list whose draws are known to be good and in order (`KnownDraw`).
pub const KNOWN: u32 = 3;

/// .. of one segment, in such a list.
pub const KNOWN_ONE: u32 = 4;

/// What stays the same over all the segments of a fill: the scene, room for c commands and d depth fills in a row, how many layers are open, whether solid
/// segments are eligible (rule 6), the place of the attribute, the draw's id, and the width of a depth bucket.
#[derive(Clone, Copy, Debug, PartialEq, Eq)]
pub struct FillJob {
    pub scene: Scene,
    pub c: u32,
    pub d: u32,
    pub layers: u32,
    pub eligible: bool,
    pub attr: u32,
    pub id: u32,
    pub width: Width,
}

/// Segments of a list from start to end at most, that stand on one row, numbered as in the scene.
#[derive(Clone, Copy, Debug, PartialEq, Eq)]
pub struct SegmentRun {
    pub start: usize,
    pub end: usize,
    pub row: u32,
}

// What is left of a segment, drawn on its row. SPLIT is the job's `eligible`.
#[derive(Clone, Copy)]
struct Stroke<const WAY: u32, const SPLIT: bool> {
    job: FillJob,
    stretch: Stretch,
}

impl<const WAY: u32, const SPLIT: bool> RowAct for Stroke<WAY, SPLIT> {
    ghost made = { λ a w. draws a.job (tiles a.stretch.tiles) a.stretch.alpha w };

    ghost Asks = { λ a w. Short (tiles a.stretch.tiles) × (a.job.layers ≤ most-layers) × Splits a.job SPLIT };

    // What `push_fill` does, with a short way for one command on a row that has its layers.
    fn on(self, row: &mut Row<'_>) {
        let job = self.job;
        let stretch = self.stretch;
        if is_unsplit(SPLIT, stretch.alpha) && row.state[LEVELS] == job.layers {
            row.push_paint(stretch.tiles, stretch.alpha, job.attr);
            return;
        }
        push_fill::<WAY, SPLIT>(row, job.layers, stretch, job.attr, job.id, job.width);
    }
}

// One segment of the list.
fn fill_segment<const WAY: u32, const SPLIT: bool>(
    rows: &mut Rows<'_>,
    segs: &[u32],
    i: usize,
    job: FillJob,
)
    requires split { Splits job SPLIT }
    requires fits { Fits job (count-rows rows.old.state.now) (all-held rows.old) }
    requires segment { GoodAt segs.now i }
    requires room { RoomFor job (one-put job segs.now i) (held_rows job rows.old) }
    ensures same { SameRows rows.old rows.new }
    ensures rows { job_rows job rows.old.state.now (all-held rows.new)
        ≡ done job (one-put job segs.now i) (held_rows job rows.old) }
{
    if let Some(placed) = place(segment_at(segs, i), job.scene) {
        let stroke = Stroke::<WAY, SPLIT> {
            job,
            stretch: placed.stretch,
        };
        on_row(
            rows.state,
            rows.render_cmds,
            rows.depth_cmds,
            job.c,
            job.d,
            placed.row as usize,
            stroke,
        );
    }
}

// The alpha segments of a run, in a row: a command each, on the row's own words. It gives the first segment after them.
fn push_run<const WAY: u32, const SPLIT: bool>(
    state: &mut [u32],
    render_cmds: &mut [u32],
    depth_cmds: &mut [u32],
    segs: &[u32],
    run: SegmentRun,
    job: FillJob,
) -> usize
    requires { RunReady job segs.now run.row run.start run.«end» (words state.old render_cmds.old depth_cmds.old) }
    ensures after { (run.start < result) × (result ≤ run.«end») }
    ensures on { OnRow segs.now run.row run.start result }
    ensures row { words state.new render_cmds.new depth_cmds.new ≡ run_of job segs.now run.start result (words state.old render_cmds.old depth_cmds.old) }
{
    let mut lent = Row {
        state,
        render_cmds,
        depth_cmds,
    };
    ensure_row_layers(&mut lent, job.layers);
    let mut next = run.start;
    while next < run.end {
        let segment = segment_at(segs, next);
        if segment.row != run.row {
            return next;
        }
        if segment.kind == 0 {
            return next;
        }
        if let Some(placed) = place(segment, job.scene) {
            lent.push_paint(placed.stretch.tiles, placed.stretch.alpha, job.attr);
        }
        next += 1;
    }
    next
}

// The same on the whole screen, from a segment that is not solid: its row is found once for all. Where nothing is left of it, it alone.
fn fill_run<const WAY: u32, const SPLIT: bool>(
    state: &mut [u32],
    render_cmds: &mut [u32],
    depth_cmds: &mut [u32],
    segs: &[u32],
    start: usize,
    end: usize,
    job: FillJob,
) -> usize
    requires ready { FillReady job (count-rows state.old) segs.now start «end» (words state.old render_cmds.old depth_cmds.old) }
    requires some { start < «end» }
    requires alpha { NotSolid segs.now start }
    ensures after { (start < result) × (result ≤ «end») }
    ensures rows { job_rows job state.old (words state.new render_cmds.new depth_cmds.new)
        ≡ rows_after job segs.now start result (job_rows job state.old (words state.old render_cmds.old depth_cmds.old)) }
{
    let first = segment_at(segs, start);
    let Some(placed) = place(first, job.scene) else {
        return start + 1;
    };
    let p = place_of(job.c, job.d, placed.row as usize);
    let run = SegmentRun {
        start,
        end,
        row: first.row,
    };
    push_run::<WAY, SPLIT>(
        &mut state[p.x0..p.x1],
        &mut render_cmds[p.y0..p.y1],
        &mut depth_cmds[p.z0..p.z1],
        segs,
        run,
        job,
    )
}

// The segments from start to end of a list that is judged: solid ones one by one, those with alpha in runs.
fn fill_in<const WAY: u32, const SPLIT: bool>(
    rows: &mut Rows<'_>,
    segs: &[u32],
    start: usize,
    end: usize,
    job: FillJob,
)
    requires split { Splits job SPLIT }
    requires ready { FillReady job (count-rows rows.old.state.now) segs.now start «end» (all-held rows.old) }
    ensures same { SameRows rows.old rows.new }
    ensures rows { all-held rows.new ≡ lay (rows_after job segs.now start «end» (held_rows job rows.old)) }
{
    let mut i = start;
    while i < end {
        if segs[SEGMENT * i] == 0 {
            fill_segment::<WAY, SPLIT>(rows, segs, i, job);
            i += 1;
        } else {
            i = fill_run::<WAY, SPLIT>(
                rows.state,
                rows.render_cmds,
                rows.depth_cmds,
                segs,
                i,
                end,
                job,
            );
        }
    }
}

/// The segments from start to end of a list that is judged. A draw that may be split has loops of its own; a known draw of one segment has none.
pub fn fill_rows<const WAY: u32>(
    rows: &mut Rows<'_>,
    segs: &[u32],
    start: usize,
    end: usize,
    job: FillJob,
)
    requires split { job.eligible ≡ true → job.layers ≡ 0 }
    requires ready { FillReady job (count-rows rows.old.state.now) segs.now start «end» (all-held rows.old) }
    ensures same { SameRows rows.old rows.new }
    ensures rows { all-held rows.new ≡ lay (rows_after job segs.now start «end» (held_rows job rows.old)) }
{
    if WAY == KNOWN && start + 1 == end {
        fill_alone::<KNOWN_ONE>(rows, segs, start, job);
        return;
    }
    if job.eligible {
        fill_in::<WAY, true>(rows, segs, start, end, job);
    } else {
        fill_in::<WAY, false>(rows, segs, start, end, job);
    }
}

/// The one segment i of a list that is judged.
pub fn fill_alone<const WAY: u32>(rows: &mut Rows<'_>, segs: &[u32], i: usize, job: FillJob)
    requires split { job.eligible ≡ true → job.layers ≡ 0 }
    requires ready { FillReady job (count-rows rows.old.state.now) segs.now i (i + 1) (all-held rows.old) }
    ensures same { SameRows rows.old rows.new }
    ensures rows { all-held rows.new ≡ lay (rows_after job segs.now i (i + 1) (held_rows job rows.old)) }
{
    if job.eligible {
        fill_segment::<WAY, true>(rows, segs, i, job);
    } else {
        fill_segment::<WAY, false>(rows, segs, i, job);
    }
}
