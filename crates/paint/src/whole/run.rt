//! The steps of one row, over its own words. Parts: where a function asks something, its callers have judged it.
ghost use Rattle.std.specs.Prelude.{◌≡◌, true, false, ◌+◌, ◌*◌, ◌≤◌, length};
ghost use Rattle.sizes.specs.Sizes.{piece-size, most-layers};
ghost use Rattle.paint.specs.Answers.{painted_of};
ghost use Rattle.paint.specs.Painting.{word, out, listed};
ghost use Rattle.rules.specs.Minima.{minima-room};
ghost use Rattle.screen.specs.Depths.{depths};
ghost use Rattle.paint.specs.Named.{RowLong, SameRow, row_out, own-depths};
ghost use Rattle.paint.specs.Running.{most, onto, one_more};
ghost use Rattle.paint.specs.Rows.{CalmRow, steps_of, Sure, run_on, went};

use crate::canvas::RowWords;
use crate::command::{StoredRow, step_row};
use crate::pieces::Stepped;
use crate::whole::commands::{Seen, run_commands};
use crate::whole::depths::{run_depths, settle_depth};
use crate::whole::pieces::Pieces;
use row::judge::is_good_summary;
use sizes::answers::Refusal;
use sizes::{DEPTHS, MOST_LAYERS, PIECE, RENDERS};

// One step more: its pieces go after those so far, whose number is given.
fn step_on(
    row: &StoredRow<'_>,
    canvas: &mut RowWords<'_>,
    list: &mut [u32],
    pieces: usize,
) -> Result<Stepped, Refusal>
    requires lens { RowLong canvas.old }
    requires pieces_in_bounds { piece-size * pieces ≤ length list.old }
    ensures same { SameRow canvas.old canvas.new }
    ensures list_after { row_out (onto pieces result) canvas.new list.new ≡ one_more (steps_of row.now) (row_out (listed pieces) canvas.old list.old) }
    ensures pieces_in_bounds_2 { piece-size * (onto pieces result).pieces ≤ length list.old }
{
    let at = PIECE * pieces;
    let step = step_row(row, canvas, &mut list[at..])?;
    Ok(Stepped {
        finished: step.finished,
        pieces: pieces + step.pieces,
    })
}

// So many pieces, the row not finished.
fn so_far(pieces: usize) -> Result<Stepped, Refusal>
    ensures { painted_of result ≡ listed pieces }
{
    Ok(Stepped {
        finished: false,
        pieces,
    })
}

/// How far a row went: the steps done, the pieces in the list, and whether no step is left.
#[derive(Clone, Copy, Debug, PartialEq, Eq)]
pub struct Went {
    pub steps: usize,
    pub pieces: usize,
    pub ended: bool,
}

// The row's counts have room, the painting stands within its steps and nesting, and its summary is in order.
#[inline(always)]
fn is_calm(row: &StoredRow<'_>, done: u32, nesting: u32) -> bool
    ensures { result ≡ true → CalmRow row.now × (done ≤ word row.now.state.now 1 + word row.now.state.now 0) × (nesting ≤ most-layers) }
{
    let depths = row.state[DEPTHS];
    let renders = row.state[RENDERS];
    if row.render_cmds.len() < 4 * renders as usize
        || row.depth_cmds.len() < 2 * depths as usize
        || MOST_LAYERS < nesting
        || depths + renders < done
    {
        return false;
    }
    is_good_summary(row.state)
}

// No step.
#[inline(always)]
fn stood() -> Went
    ensures { result ≡ went 0 0 false }
{
    Went {
        steps: 0,
        pieces: 0,
        ended: false,
    }
}

// The row's next steps, at most `limit`, as far as one look settles each, into a list of which nothing is written.
#[inline(always)]
fn run_into(
    row: &StoredRow<'_>,
    depth: &mut [u32],
    minima: &mut [u32],
    painting: &mut [u32],
    pieces: &mut Pieces<'_>,
    limit: usize,
) -> Went
    requires lens { (length depth.old ≤ 65535) × (length minima.old ≡ minima-room (length depth.old)) × (length painting.old ≡ 2) }
    requires limit { limit ≤ most }
    requires none { pieces.old.at ≡ 0 }
    ensures same { pieces.new.list.ghost_name ≡ pieces.old.list.ghost_name }
    ensures long { (length depth.new ≡ length depth.old) × (length minima.new ≡ length minima.old) × (length painting.new ≡ 2)
        × (length pieces.new.list.now ≡ length pieces.old.list.now) }
    ensures sure { Sure row.now limit result (depths depth.old minima.old) painting.old pieces.old.list.now
        (depths depth.new minima.new) painting.new pieces.new.list.now }
{
    let depths = row.state[DEPTHS];
    let renders = row.state[RENDERS];
    let done = painting[0];
    let nesting = painting[1];
    if !is_calm(row, done, nesting) {
        return stood();
    }
    let mut steps: usize = 0;
    if done < depths {
        let left = (depths - done) as usize;
        steps = run_depths(row, depth, minima, left, limit, pieces);
        painting[0] = done + steps as u32;
        if limit <= steps || steps < left {
            return Went {
                steps,
                pieces: pieces.count(),
                ended: false,
            };
        }
    }
    let start = (done + steps as u32 - depths) as usize;
    let stop = (renders as usize).min(start + (limit - steps));
    let reached = run_commands(row, depth, pieces, start, stop, nesting);
    painting[0] = depths + reached.at as u32;
    painting[1] = reached.nesting;
    let all = steps + (reached.at - start);
    Went {
        steps: all,
        pieces: pieces.count(),
        ended: reached.at == renders as usize && all < limit,
    }
}

/// The row's next steps, at most `limit`, as far as one look settles each: its depth fills, then its commands. It refuses nothing: what it leaves is judged step
/// by step. The row's depth words, the minima above them and its painting words are lent one by one.
#[inline(always)]
pub fn run_sure(
    row: &StoredRow<'_>,
    depth: &mut [u32],
    minima: &mut [u32],
    painting: &mut [u32],
    list: &mut [u32],
    limit: usize,
) -> Went
    requires lens { (length depth.old ≤ 65535) × (length minima.old ≡ minima-room (length depth.old)) × (length painting.old ≡ 2) }
    requires limit { limit ≤ most }
    ensures long { (length depth.new ≡ length depth.old) × (length minima.new ≡ length minima.old) × (length painting.new ≡ 2) × (length list.new ≡ length list.old) }
    ensures sure { Sure row.now limit result (depths depth.old minima.old) painting.old list.old (depths depth.new minima.new) painting.new list.new }
{
    let mut out = Pieces::new(list);
    run_into(row, depth, minima, painting, &mut out, limit)
}

// The row's next step, if one look settles it, into a list of which nothing is written.
#[inline(always)]
fn step_into(
    row: &StoredRow<'_>,
    depth: &mut [u32],
    minima: &mut [u32],
    painting: &mut [u32],
    pieces: &mut Pieces<'_>,
) -> Went
    requires lens { (length depth.old ≤ 65535) × (length minima.old ≡ minima-room (length depth.old)) × (length painting.old ≡ 2) }
    requires none { pieces.old.at ≡ 0 }
    ensures same { pieces.new.list.ghost_name ≡ pieces.old.list.ghost_name }
    ensures long { (length depth.new ≡ length depth.old) × (length minima.new ≡ length minima.old) × (length painting.new ≡ 2)
        × (length pieces.new.list.now ≡ length pieces.old.list.now) }
    ensures sure { Sure row.now 1 result (depths depth.old minima.old) painting.old pieces.old.list.now
        (depths depth.new minima.new) painting.new pieces.new.list.now }
{
    let depths = row.state[DEPTHS];
    let done = painting[0];
    let nesting = painting[1];
    if !is_calm(row, done, nesting) {
        return stood();
    }
    if done < depths {
        let k = (depths - done - 1) as usize;
        if !settle_depth(row, depth, minima, k, pieces) {
            return stood();
        }
        painting[0] = done + 1;
        return Went {
            steps: 1,
            pieces: pieces.count(),
            ended: false,
        };
    }
    let at = done - depths;
    if row.state[RENDERS] <= at {
        return Went {
            steps: 0,
            pieces: 0,
            ended: true,
        };
    }
    let seen = Seen::of(row, depth.len());
    let Some(level) = seen.settle(depth, at as usize, nesting, pieces) else {
        return stood();
    };
    painting[0] = done + 1;
    painting[1] = level;
    Went {
        steps: 1,
        pieces: pieces.count(),
        ended: false,
    }
}

/// The row's next step, if one look settles it. It refuses nothing: a step that it leaves is judged by itself.
#[inline(always)]
pub fn step_sure(
    row: &StoredRow<'_>,
    depth: &mut [u32],
    minima: &mut [u32],
    painting: &mut [u32],
    list: &mut [u32],
) -> Went
    requires lens { (length depth.old ≤ 65535) × (length minima.old ≡ minima-room (length depth.old)) × (length painting.old ≡ 2) }
    ensures long { (length depth.new ≡ length depth.old) × (length minima.new ≡ length minima.old) × (length painting.new ≡ 2) × (length list.new ≡ length list.old) }
    ensures sure { Sure row.now 1 result (depths depth.old minima.old) painting.old list.old (depths depth.new minima.new) painting.new list.new }
{
    let mut out = Pieces::new(list);
    step_into(row, depth, minima, painting, &mut out)
}

// The rest of a run of at most `limit` steps, each by itself, until one is refused or the row is finished. Refused, 4 or 14, only where the run's first step is.
fn run_steps(
    row: &StoredRow<'_>,
    canvas: &mut RowWords<'_>,
    list: &mut [u32],
    limit: usize,
    went: Went,
) -> Result<Stepped, Refusal>
    requires lens { RowLong canvas.old }
    requires limit { limit ≤ most }
    requires pieces { piece-size * went.pieces ≤ length list.old }
    requires none { went.steps ≡ 0 → went.pieces ≡ 0 }
    ensures same { SameRow canvas.old canvas.new }
    ensures run { row_out (painted_of result) canvas.new list.new ≡ run_on row.now limit went.steps went.pieces (own-depths canvas.old) canvas.old.painting.now list.old }
{
    let mut pieces = went.pieces;
    let mut steps = went.steps;
    while steps < limit {
        let done = match step_on(row, canvas, list, pieces) {
            Ok(done) => done,
            Err(refusal) => {
                if steps == 0 {
                    return Err(refusal);
                }
                return so_far(pieces);
            }
        };
        if done.finished {
            return Ok(done);
        }
        pieces = done.pieces;
        steps += 1;
    }
    so_far(pieces)
}

/// The rest of a run of at most `limit` steps, after those that were sure, each by itself, until one is refused or the row is finished. Refused, 4 or 14, only
/// where the run's first step is. The row's depth words, the minima above them and its painting words are lent one by one.
pub fn run_parts(
    row: &StoredRow<'_>,
    depth: &mut [u32],
    minima: &mut [u32],
    painting: &mut [u32],
    list: &mut [u32],
    limit: usize,
    went: Went,
) -> Result<Stepped, Refusal>
    requires lens { (length depth.old ≤ 65535) × (length minima.old ≡ minima-room (length depth.old)) × (length painting.old ≡ 2) }
    requires limit { limit ≤ most }
    requires pieces { piece-size * went.pieces ≤ length list.old }
    requires none { went.steps ≡ 0 → went.pieces ≡ 0 }
    ensures { out (painted_of result) (depths depth.new minima.new) painting.new list.new ≡ run_on row.now limit went.steps went.pieces (depths depth.old minima.old) painting.old list.old }
{
    let mut canvas = RowWords {
        depth,
        minima,
        painting,
    };
    run_steps(row, &mut canvas, list, limit, went)
}
