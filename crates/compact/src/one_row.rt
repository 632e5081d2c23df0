//! One row compacted, over its own words.
ghost use Rattle.std.specs.Prelude.{◌≡◌, ◌*◌, ◌≤◌, length};
ghost use Rattle.sizes.specs.Sizes.{most-room, row-size};
ghost use Rattle.sizes.specs.Refusals.{answer_number};
ghost use Rattle.sizes.specs.Widths.{bucket-tiles};
ghost use Rattle.rules.specs.Answers.{answer};
ghost use Rattle.row.specs.Words.{words};
ghost use Rattle.paint.specs.Reading.{attrs_of};
ghost use Rattle.compact.specs.Row.{has-counts, compact-words};

use crate::commands::{close_up, is_good_commands};
use crate::newest::newest_ids;
use paint::command::Attributes;
use sizes::answers::Refusal;
use sizes::width::Width;
use sizes::{DEPTHS, MOST_WIDTH, NARROWEST, RENDERS, TILE_WIDTH};

// No row has more.
const MOST_BUCKETS: usize = (MOST_WIDTH / TILE_WIDTH) as usize / NARROWEST;

/// Whether the counts of the row's record have room in its words.
pub fn is_good_counts(state: &[u32], render_cmds: &[u32], depth_cmds: &[u32]) -> bool
    requires { length state.now ≡ row-size }
    ensures { result ≡ has-counts (words state.now render_cmds.now depth_cmds.now) }
{
    4 * state[RENDERS] as usize <= render_cmds.len()
        && 2 * state[DEPTHS] as usize <= depth_cmds.len()
}

// The row, its newest ids being worked out into `ids`, which has a word a bucket.
fn compact_by(
    state: &mut [u32],
    render_cmds: &mut [u32],
    depth_cmds: &[u32],
    attrs: &Attributes<'_>,
    ids: &mut [u32],
    width: Width,
) -> Result<(), Refusal>
    requires long { length state.old ≡ row-size }
    requires few { length ids.old ≤ 65535 }
    ensures { answer (answer_number result) (words state.new render_cmds.new depth_cmds.now)
        ≡ compact-words (bucket-tiles width) (length ids.old) (attrs_of attrs.now) (words state.old render_cmds.old depth_cmds.now) }
{
    if !is_good_counts(state, render_cmds, depth_cmds) {
        return Err(Refusal::BadRecord);
    }
    if !newest_ids(depth_cmds, state[DEPTHS] as usize, attrs, ids) {
        return Err(Refusal::BadRecord);
    }
    let renders = state[RENDERS] as usize;
    if !is_good_commands(render_cmds, renders, attrs) {
        return Err(Refusal::BadRecord);
    }
    state[RENDERS] = close_up(render_cmds, renders, attrs, ids, width) as u32;
    Ok(())
}

/// A row of so many buckets without the commands that nothing will ever show: what is left closes up in its order, the slots behind it are 0, and the record
/// has the new count. BadRecord, 4, for a count, a tag, a place, an attribute or an id out of bounds: refused, every word stays.
pub fn compact_words(
    state: &mut [u32],
    render_cmds: &mut [u32],
    depth_cmds: &[u32],
    attrs: &Attributes<'_>,
    buckets: usize,
    width: Width,
) -> Result<(), Refusal>
    requires long { length state.old ≡ row-size }
    requires few { buckets ≤ 64 }
    ensures { answer (answer_number result) (words state.new render_cmds.new depth_cmds.now)
        ≡ compact-words (bucket-tiles width) buckets (attrs_of attrs.now) (words state.old render_cmds.old depth_cmds.now) }
{
    let mut ids = [0; MOST_BUCKETS];
    compact_by(
        state,
        render_cmds,
        depth_cmds,
        attrs,
        &mut ids[..buckets],
        width,
    )
}
