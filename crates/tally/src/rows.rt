//! What one row adds to the figures, over its own words.
ghost use Rattle.std.specs.Prelude.{◌≡◌, ◌*◌, ◌≤◌, length};
ghost use Rattle.sizes.specs.Sizes.{most-room, row-size};
ghost use Rattle.sizes.specs.Widths.{bucket-tiles};
ghost use Rattle.row.specs.Words.{words};
ghost use Rattle.paint.specs.Reading.{attrs_of};
ghost use Rattle.tally.specs.Counts.{figures-of, Within, row-most};
ghost use Rattle.tally.specs.Rows.{row-tallied};

use crate::counts::Figures;
use crate::fills::{add_commands, add_depth_fills};
use compact::commands::is_good_commands;
use compact::newest::newest_ids;
use compact::one_row::is_good_counts;
use paint::command::Attributes;
use sizes::width::Width;
use sizes::{DEPTHS, MOST_WIDTH, NARROWEST, RENDERS, TILE_WIDTH};

// No row has more.
const MOST_BUCKETS: usize = (MOST_WIDTH / TILE_WIDTH) as usize / NARROWEST;

// The row, its newest ids being worked out into `ids`, which has a word a bucket.
fn count_by(
    state: &[u32],
    render_cmds: &[u32],
    depth_cmds: &[u32],
    attrs: &Attributes<'_>,
    ids: &mut [u32],
    width: Width,
) -> Figures
    requires long { length state.now ≡ row-size }
    requires few { (length ids.old ≤ 64) × (length render_cmds.now ≤ 4 * most-room) × (length depth_cmds.now ≤ 2 * most-room) }
    ensures figures { figures-of result
        ≡ row-tallied (bucket-tiles width) (length ids.old) (attrs_of attrs.now) (words state.now render_cmds.now depth_cmds.now) }
    ensures small { Within row-most (figures-of result) }
{
    if !is_good_counts(state, render_cmds, depth_cmds) {
        return Figures::nothing();
    }
    let renders = state[RENDERS] as usize;
    let depths = state[DEPTHS] as usize;
    if !newest_ids(depth_cmds, depths, attrs, ids) {
        return Figures::nothing();
    }
    if !is_good_commands(render_cmds, renders, attrs) {
        return Figures::nothing();
    }
    let mut figures = Figures {
        commands: renders as u64,
        fills: depths as u64,
        ..Figures::nothing()
    };
    add_depth_fills(&mut figures, depth_cmds, depths, attrs, ids, width);
    add_commands(&mut figures, render_cmds, renders, attrs, ids, width);
    figures
}

/// What a row of so many buckets adds: nothing where a count, a tag, a place, an attribute or an id is out of bounds.
pub fn row_figures(
    state: &[u32],
    render_cmds: &[u32],
    depth_cmds: &[u32],
    attrs: &Attributes<'_>,
    buckets: usize,
    width: Width,
) -> Figures
    requires long { length state.now ≡ row-size }
    requires few { (buckets ≤ 64) × (length render_cmds.now ≤ 4 * most-room) × (length depth_cmds.now ≤ 2 * most-room) }
    ensures figures { figures-of result ≡ row-tallied (bucket-tiles width) buckets (attrs_of attrs.now) (words state.now render_cmds.now depth_cmds.now) }
    ensures small { Within row-most (figures-of result) }
{
    let mut ids = [0; MOST_BUCKETS];
    count_by(
        state,
        render_cmds,
        depth_cmds,
        attrs,
        &mut ids[..buckets],
        width,
    )
}
