//! Room back in a crowded row. Refused as the call of `compact`.
ghost use Rattle.std.specs.Prelude.{◌≡◌};
ghost use Rattle.rules.specs.Answers.{answer};
ghost use Rattle.row.specs.Rows.{all-held, SameRows};
ghost use Rattle.screen.specs.declared.Screen.{Screen as Numbers};
ghost use Rattle.screen.specs.Lent.{SameLent};
ghost use Rattle.paint.specs.Stepping.{attributes};
ghost use Rattle.compact.specs.Call.{compact_number};
ghost use Rattle.host.specs.State.{refused_at};
ghost use Rattle.host.specs.Held.{words_in};
ghost use Rattle.host.specs.Lent.{rows_in};
ghost use Rattle.host.specs.Compacted.{compact_call, CompactKeeps, compact_on};

use crate::state::{StateWords, before_4, leave, screen_at, screen_of};
use compact::{compact_row, judge};
use row::Rows;
use screen::Lent;

// Where the state is no screen's: 2 or 1 as the call would answer, else 4.
#[tactic(auto, unfolding(crate::specs::State::refused_at))]
fn refuse_compact(
    state: &StateWords,
    rows: &Rows<'_>,
    paint_attrs: &[u32],
    layer_attrs: &[u32],
    row: usize,
) -> u32
    ensures { result ≡ refused_at (words_in state.now)
        (λ (s : Numbers). compact_number s row (all-held rows.now) (attributes paint_attrs.now layer_attrs.now)) }
{
    before_4(judge(screen_at(state), rows, paint_attrs, layer_attrs, row))
}

// The call over the rows and the tables of attributes.
#[tactic(auto, using(crate::proofs::Compacted::compact_unheld))]
fn compact_lent(
    state: &mut StateWords,
    rows: &mut Rows<'_>,
    paint_attrs: &mut [u32],
    layer_attrs: &mut [u32],
    row: usize,
) -> u32
    ensures same { SameRows rows.old rows.new }
    ensures paints { paint_attrs.new ≡ paint_attrs.old }
    ensures layers { layer_attrs.new ≡ layer_attrs.old }
    ensures compacted { answer result (words_in state.new, all-held rows.new)
        ≡ compact_call row (attributes paint_attrs.old layer_attrs.old) (words_in state.old) (all-held rows.old) }
{
    let Some(mut screen) = screen_of(state, true) else {
        return refuse_compact(state, rows, paint_attrs, layer_attrs, row);
    };
    let done = compact_row(&mut screen, rows, paint_attrs, layer_attrs, row);
    leave(state, screen, done)
}

/// Takes out of a row the render commands that nothing will ever show: fills of which no tile is visible, and a PushBuf directly followed by a PopBuf, again and
/// again until there is neither. What is left closes up in its order. Done, it ends painting. Refused as `compact_row`.
#[unsafe(no_mangle)]
pub extern "C" fn coarse_compact_row(
    state: &mut StateWords,
    tables: &mut Lent<'_>,
    row: usize,
) -> u32
    ensures same { SameLent tables.old tables.new }
    ensures kept { CompactKeeps tables.old tables.new }
    ensures compacted { answer result (words_in state.new, rows_in tables.new) ≡ compact_on row state.old tables.old }
{
    let mut rows = Rows {
        state: tables.rows,
        render_cmds: tables.render_cmds,
        depth_cmds: tables.depth_cmds,
    };
    compact_lent(
        state,
        &mut rows,
        tables.paint_attrs,
        tables.layer_attrs,
        row,
    )
}
