//! The call that counts a list of recordings, on a host's words.
ghost use Rattle.std.specs.Prelude.{◌≡◌};
ghost use Rattle.rules.specs.Answers.{answer};
ghost use Rattle.screen.specs.Lent.{tables_in, SameLent};
ghost use Rattle.host.specs.Asked.{told};
ghost use Rattle.host.specs.Held.{words_in};
ghost use Rattle.host.specs.Figured.{figures_call};

use crate::editions::read_file;
use crate::state::{SetupWords, StateWords, leave, read_setup, screen_of};
use screen::Lent;
use sizes::answers::Refusal;
use tally::{Recordings, figures};

/// What the depth stage saves of each recording of a list, and of all of them, as `figures`: their words one after the other, all of an edition, 1 or 2, where
/// each ends among them, and the table. Another number is refused by 3, and words that ask for no setup by 2 or 4; then comes 4 for a state that is no screen's;
/// the rest as `figures`. Refused, nothing changes.
#[unsafe(no_mangle)]
#[tactic(auto, using(crate::proofs::Figured::figures_untold))]
pub extern "C" fn coarse_figures(
    state: &mut StateWords,
    edition: u32,
    words: &[u32],
    ends: &[usize],
    setup: SetupWords,
    tables: &mut Lent<'_>,
    table: &mut [u64],
) -> u32
    ensures same { SameLent tables.old tables.new }
    ensures refused { (result ≡ 0 → ⊥) → tables_in tables.new ≡ tables_in tables.old }
    ensures figured { answer result (words_in state.new, tables_in tables.new, table.new)
        ≡ figures_call (told edition words.now) ends.now setup (words_in state.old) (tables_in tables.old) table.old }
{
    let file = match read_file(edition, words) {
        Ok(file) => file,
        Err(refusal) => return refusal.number(),
    };
    let asked = match read_setup(setup) {
        Ok(asked) => asked,
        Err(refusal) => return refusal.number(),
    };
    let Some(mut screen) = screen_of(state, true) else {
        return Refusal::BadRecord.number();
    };
    let list = Recordings {
        edition: file.edition,
        words: file.words,
        ends,
    };
    let done = figures(list, &mut screen, asked, tables, table);
    leave(state, screen, done)
}
