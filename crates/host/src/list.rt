//! The call of a list of fills, on a host's structs.
ghost use Rattle.std.specs.Prelude.{◌≡◌};
ghost use Rattle.rules.specs.Answers.{answer};
ghost use Rattle.fill.specs.Fills.{FillLent};
ghost use Rattle.fill.specs.Lists.{fills_out, told};
ghost use Rattle.screen.specs.Lent.{SameLent};
ghost use Rattle.host.specs.State.{screen-words};
ghost use Rattle.host.specs.Held.{words_in};
ghost use Rattle.host.specs.Lent.{rows_in, FillKeeps};
ghost use Rattle.host.specs.FillLists.{unheld_number, list_out, list_on};

use crate::border::refuse_build;
use crate::state::{StateWords, put_screen, screen_of};
use fill::list::{Draws, Stopped, fill_list};
use row::Rows;
use screen::{Lent, Screen};
use sizes::answers::Refusal;

// The number where the state's words are no screen's: 4 for a bad range or an empty one, else as a fill's.
fn refuse_list(state: &StateWords, rows: &Rows<'_>, draws: Draws<'_>) -> u32
    ensures { result ≡ unheld_number draws.entry (words_in state.now) rows.now }
{
    if !draws.is_good() || draws.start == draws.end {
        return Refusal::BadRecord.number();
    }
    refuse_build(state, rows)
}

// What a list of fills gave: its screen's words and how many fills are done are stored, and its number given.
fn leave_list(
    state: &mut StateWords,
    screen: Screen,
    asked: usize,
    filled: Result<(), Stopped>,
    done: &mut usize,
) -> u32
    ensures told { (l : FillLent) → told asked filled l ≡ fills_out result done.new l }
    ensures state { words_in state.new ≡ screen-words screen }
{
    put_screen(state, screen);
    match filled {
        Ok(()) => {
            *done = asked;
            0
        }
        Err(stopped) => {
            *done = stopped.done;
            stopped.refusal.number()
        }
    }
}

/// Rules 3 to 7 for each of a range of draws, eight words each, in order, as `fill_list`. `done` is how many fills are done, on every answer; the state's words
/// and the tables are what those leave, also where the call is refused.
#[unsafe(no_mangle)]
pub extern "C" fn coarse_fill_list(
    state: &mut StateWords,
    tables: &mut Lent<'_>,
    paints: &[u32],
    segments: &[u32],
    draws: &Draws<'_>,
    done: &mut usize,
) -> u32
    ensures same { SameLent tables.old tables.new }
    ensures kept { FillKeeps tables.old tables.new }
    ensures filled { answer result (list_out state.new tables.new done.new)
        ≡ list_on paints.now segments.now draws.now state.old tables.old }
{
    let mut rows = Rows {
        state: tables.rows,
        render_cmds: tables.render_cmds,
        depth_cmds: tables.depth_cmds,
    };
    let Some(mut screen) = screen_of(state, true) else {
        *done = 0;
        return refuse_list(state, &rows, *draws);
    };
    let filled = fill_list(
        &mut screen,
        &mut rows,
        tables.paint_attrs,
        paints,
        segments,
        *draws,
    );
    leave_list(state, screen, draws.asked(), filled, done)
}
