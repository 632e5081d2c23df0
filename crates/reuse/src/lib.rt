//! A screen used again: a reset that clears only what was used since the reset before it. `reset_used` is a public call; the others are parts of it, and
//! `judge_used` also a host's.
#![tactic(auto)]

ghost use Rattle.std.specs.Prelude.{ℕ, ◌≡◌, ◌≤◌, ◌*◌, ◌++◌, length, take, drop};
ghost use Rattle.sizes.specs.Sizes.{most-rows, most-room, most-layers, row-size, renders-at, depths-at, opacity-count};
ghost use Rattle.sizes.specs.Refusals.{answer_number};
ghost use Rattle.rules.specs.Answers.{answer};
ghost use Rattle.screen.specs.Screens.{frame-of};
ghost use Rattle.screen.specs.Judging.{judged_reset};
ghost use Rattle.screen.specs.Tables.{zeros, lengths, float-0};
ghost use Rattle.screen.specs.Lent.{tables_in, whole, SameLent};
ghost use Rattle.reuse.specs.Used.{first-cleared, rows-cleared, used-cleared, judged_used, used_reset};

use screen::lent::{blank_rows, judge_reset};
use screen::{Lengths, Lent, Screen, fresh};
use sizes::answers::Refusal;
use sizes::{DEPTHS, FILTER_PAINT, LAYER_ATTR, MOST_LAYERS, OPEN_LAYER, PAINT_ATTR, RENDERS, ROW};

// The first entries of a table become `zero`, as many as are used.
#[inline(always)]
fn clear_first<T: Copy>(table: &mut [T], used: usize, zero: T)
    requires infallible { T.is_infallible zero }
    requires copies { (y : T) → T.is_clone zero y → y ≡ zero }
    ensures { table.new ≡ first-cleared zero used table.old }
{
    let end = used.min(table.len());
    table[..end].fill(zero);
}

// Of each row's commands and depth fills, those that its record counts are cleared; then all records are.
fn clear_rows(records: &mut [u32], render_cmds: &mut [u32], depth_cmds: &mut [u32], c: u32, d: u32)
    requires room { (c ≤ most-room) × (d ≤ most-room) }
    requires long { (n : ℕ) × (n ≤ most-rows) × (length records.old ≡ n * row-size) × (length render_cmds.old ≡ n * (4 * c)) × (length depth_cmds.old ≡ n * (2 * d)) }
    ensures records { records.new ≡ zeros 0 records.old }
    ensures commands { (n : ℕ) → length records.old ≡ n * row-size → render_cmds.new ≡ rows-cleared (4 * c) 4 renders-at n records.old render_cmds.old }
    ensures fills { (n : ℕ) → length records.old ≡ n * row-size → depth_cmds.new ≡ rows-cleared (2 * d) 2 depths-at n records.old depth_cmds.old }
{
    let render = 4 * c as usize;
    let fills = 2 * d as usize;
    for r in 0..records.len() / ROW {
        let at = r * ROW;
        let x = r * render;
        let y = r * fills;
        clear_first(
            &mut render_cmds[x..x + render],
            4 * records[at + RENDERS] as usize,
            0,
        );
        clear_first(
            &mut depth_cmds[y..y + fills],
            2 * records[at + DEPTHS] as usize,
            0,
        );
    }
    records.fill(0);
}

// The opacities of so many open layers, and of so many layer attributes.
fn clear_opacities(opacities: &mut [f32], open: u32, closed: u32)
    requires { length opacities.old ≡ opacity-count }
    ensures { opacities.new
        ≡ first-cleared float-0 «open» (take most-layers opacities.old) ++ first-cleared float-0 closed (drop most-layers opacities.old) }
{
    let (layers, attrs) = opacities.split_at_mut(MOST_LAYERS as usize);
    clear_first(layers, open as usize, 0.0);
    clear_first(attrs, closed as usize, 0.0);
}

/// 2, 1 and 4, as a reset to the screen's own frame; then 4 for the screen's numbers.
#[tactic(auto, unfolding(crate::specs::Used::judged_used))]
pub fn judge_used(screen: Screen, lent: Lengths) -> Result<(), Refusal>
    ensures { answer_number result ≡ judged_used screen lent }
{
    if !screen.viewport.is_good_viewport() {
        return Err(Refusal::BadViewport);
    }
    judge_reset(screen, lent)?;
    if !screen.is_good() {
        return Err(Refusal::BadRecord);
    }
    Ok(())
}

// What the screen and its rows' records count is cleared, the records too, and all that painting writes.
fn clear_used(screen: Screen, lent: &mut Lent<'_>)
    requires judged { judged_reset (frame-of screen) (lengths (tables_in lent.old)) ≡ 0 }
    ensures same { SameLent lent.old lent.new }
    ensures cleared { tables_in lent.new ≡ used-cleared screen (tables_in lent.old) }
{
    clear_rows(
        lent.rows,
        lent.render_cmds,
        lent.depth_cmds,
        screen.c,
        screen.d,
    );
    blank_rows(lent.depth, lent.minima, screen.rows(), screen.buckets());
    lent.painting.fill(0);
    clear_first(lent.layers, OPEN_LAYER * screen.layers as usize, 0);
    clear_opacities(lent.opacities, screen.layers, screen.layer_attrs);
    clear_first(
        lent.paint_attrs,
        PAINT_ATTR * screen.paint_attrs as usize,
        0,
    );
    clear_first(
        lent.layer_attrs,
        LAYER_ATTR * screen.layer_attrs as usize,
        0,
    );
    clear_first(
        lent.filter_paints,
        FILTER_PAINT * screen.filter_paints as usize,
        0,
    );
}

/// Rule 1, for a screen that a reset and done steps made: what it is after a reset of its own viewport in its own setup, by clearing only what they wrote. On any
/// other words it clears what the screen's numbers and the rows' records count, and leaves the rest. 2, 1 or 4 as that reset, or 4 for the screen's numbers:
/// refused, every word stays.
pub fn reset_used(screen: &mut Screen, lent: &mut Lent<'_>) -> Result<(), Refusal>
    ensures same { SameLent lent.old lent.new }
    ensures reset { answer (answer_number result) (whole screen.new lent.new) ≡ used_reset (whole screen.old lent.old) }
{
    judge_used(*screen, lent.lengths())?;
    clear_used(*screen, lent);
    *screen = fresh(screen.viewport, screen.c, screen.d, screen.width);
    Ok(())
}
