//! What a call answers where the host's own words are refused by 4: a state that is no screen's, the flag of a clip or of a picture.
//! Each asks the judge that the call itself asks first, so that 3, 2 and 1 come before that 4. Parts of the calls.
ghost use Rattle.std.specs.Prelude.{◌≡◌, true};
ghost use Rattle.sizes.specs.Refusals.{answer_number};
ghost use Rattle.rules.specs.Boxes.{good_viewport};
ghost use Rattle.rect.specs.Rects.{box_of};
ghost use Rattle.screen.specs.declared.Screen.{Screen as Numbers};
ghost use Rattle.screen.specs.Screens.{setup-of, frame, frame-of};
ghost use Rattle.screen.specs.Tables.{lengths};
ghost use Rattle.screen.specs.Lent.{tables_in};
ghost use Rattle.reuse.specs.Used.{judged_used};
ghost use Rattle.paint.specs.Judging.{begin_number, runs_number, write_number, hidden_number, skip_number};
ghost use Rattle.file.specs.Held.{file_of};
ghost use Rattle.host.specs.State.{refused_at};
ghost use Rattle.host.specs.Held.{words_in};
ghost use Rattle.host.specs.Border.{arenas-in, arenas_number, file_number, unasked_number, rows-judged, step-judged, own-judged};

use crate::state::{StateWords, before_4, screen_at};
use depth::minima_room;
use file::{File, Recording};
use paint::Stored;
use paint::canvas::judge::{
    judge_begin, judge_hidden, judge_own, judge_runs, judge_skip, judge_step, judge_write,
};
use rect::Rect;
use reuse::judge_used;
use row::Rows;
use screen::{Lent, Screen, Setup, fresh, is_good_rooms, judge_screen};
use sizes::answers::Refusal;

// The arenas that are lent for a fresh screen (answer 1).
#[tactic(auto, unfolding(crate::specs::Border::arenas_number))]
fn judge_lent(screen: Screen, lent: &Lent<'_>) -> Result<(), Refusal>
    requires { good_viewport (box_of screen.viewport) ≡ true }
    ensures { answer_number result ≡ arenas_number (frame-of screen) (arenas-in lent.now) }
{
    let n = screen.rows();
    let b = screen.buckets();
    if !is_good_rooms(
        n,
        screen.c,
        screen.d,
        lent.render_cmds.len(),
        lent.depth_cmds.len(),
    ) || lent.depth.len() != n * b
        || lent.minima.len() != n * minima_room(b)
    {
        return Err(Refusal::BadArena);
    }
    Ok(())
}

// 2, then 1: what a reset says of a viewport, a setup and the four arenas.
fn judge_arenas(viewport: Rect, setup: Setup, lent: &Lent<'_>) -> Result<(), Refusal>
    ensures { answer_number result ≡ arenas_number (frame setup viewport) (arenas-in lent.now) }
{
    let seen = viewport.viewport_in(setup.mode)?;
    judge_lent(fresh(seen, setup.c, setup.d, setup.width), lent)
}

/// The number of a reset: 2 or 1 as it would answer, else 4.
#[tactic(auto, unfolding(crate::specs::State::refused_at))]
pub fn refuse_reset(state: &StateWords, viewport: Rect, setup: Setup, lent: &Lent<'_>) -> u32
    ensures { result ≡ refused_at (words_in state.now) (λ (s : Numbers). arenas_number (frame setup viewport) (arenas-in lent.now)) }
{
    before_4(judge_arenas(viewport, setup, lent))
}

/// The number of a reset of what is used: 2 or 1 as it would answer, else 4.
#[tactic(auto, unfolding(crate::specs::State::refused_at))]
pub fn refuse_used(state: &StateWords, lent: &Lent<'_>) -> u32
    ensures { result ≡ refused_at (words_in state.now) (λ (s : Numbers). judged_used s (lengths (tables_in lent.now))) }
{
    before_4(judge_used(screen_at(state), lent.lengths()))
}

// The file's form, then the reset to its viewport.
fn judge_file(file: File<'_>, setup: Setup, lent: &Lent<'_>) -> Result<(), Refusal>
    ensures { answer_number result ≡ file_number (file_of file.entry) (setup-of setup) (arenas-in lent.now) }
{
    let recording = Recording::read(file)?;
    judge_arenas(recording.viewport(), setup, lent)
}

/// The number of a recording, or of a question about one: 3, 2 or 1 as it would answer, else 4.
#[tactic(auto, unfolding(crate::specs::State::refused_at))]
pub fn refuse_recording(state: &StateWords, file: File<'_>, setup: Setup, lent: &Lent<'_>) -> u32
    ensures { result ≡ refused_at (words_in state.now) (λ (s : Numbers). file_number (file_of file.entry) (setup-of setup) (arenas-in lent.now)) }
{
    before_4(judge_file(file, setup, lent))
}

/// The number of a recording where the words' setup is refused: 3 for the file's form comes first, and there is no viewport to judge.
pub fn refuse_setup(file: File<'_>, refusal: Refusal) -> u32
    ensures { result ≡ unasked_number (file_of file.entry) refusal }
{
    match Recording::read(file) {
        Ok(_) => refusal.number(),
        Err(form) => form.number(),
    }
}

/// The number of a building step: 2 or 1 as it would answer, else 4.
#[tactic(auto, unfolding(crate::specs::State::refused_at))]
pub fn refuse_build(state: &StateWords, rows: &Rows<'_>) -> u32
    ensures { result ≡ refused_at (words_in state.now) (rows-judged rows.now) }
{
    before_4(judge_screen(
        screen_at(state),
        rows.state.len(),
        rows.render_cmds.len(),
        rows.depth_cmds.len(),
    ))
}

/// The number of a beginning of painting: 2 or 1 as it would answer, else 4.
#[tactic(auto, unfolding(crate::specs::State::refused_at))]
pub fn refuse_begin(state: &StateWords, depth: usize, minima: usize, painting: usize) -> u32
    ensures { result ≡ refused_at (words_in state.now) (λ (s : Numbers). begin_number s depth minima painting) }
{
    before_4(judge_begin(screen_at(state), depth, minima, painting))
}

/// The number of a painting step, or of a whole row's steps: 2 or 1 as it would answer, else 4.
#[tactic(auto, unfolding(crate::specs::State::refused_at))]
pub fn refuse_step(
    state: &StateWords,
    row: usize,
    stored: &Stored<'_>,
    depth: usize,
    minima: usize,
    painting: usize,
) -> u32
    ensures { result ≡ refused_at (words_in state.now) (step-judged stored.now row depth minima painting) }
{
    before_4(judge_step(screen_at(state), row, stored, depth, minima, painting))
}

/// The number of a row painted on its own words: 2 or 1 as it would answer, else 4.
#[tactic(auto, unfolding(crate::specs::State::refused_at))]
pub fn refuse_own(
    state: &StateWords,
    stored: &Stored<'_>,
    depth: usize,
    minima: usize,
    painting: usize,
) -> u32
    ensures { result ≡ refused_at (words_in state.now) (own-judged stored.now depth minima painting) }
{
    before_4(judge_own(screen_at(state), stored, depth, minima, painting))
}

/// The number of a call that reads the runs of a row: 2 or 1 as it would answer, else 4.
#[tactic(auto, unfolding(crate::specs::State::refused_at))]
pub fn refuse_runs(state: &StateWords, row: usize, depth: usize) -> u32
    ensures { result ≡ refused_at (words_in state.now) (λ (s : Numbers). runs_number s row depth) }
{
    before_4(judge_runs(screen_at(state), row, depth))
}

/// The number of the writing run of a row: 2 or 1 as it would answer, else 4.
#[tactic(auto, unfolding(crate::specs::State::refused_at))]
pub fn refuse_write(state: &StateWords, row: usize, depth: usize, minima: usize) -> u32
    ensures { result ≡ refused_at (words_in state.now) (λ (s : Numbers). write_number s row depth minima) }
{
    before_4(judge_write(screen_at(state), row, depth, minima))
}

/// The number of `is_hidden`: 2 or 1 as it would answer, else 4.
#[tactic(auto, unfolding(crate::specs::State::refused_at))]
pub fn refuse_hidden(state: &StateWords, row: usize, minima: usize) -> u32
    ensures { result ≡ refused_at (words_in state.now) (λ (s : Numbers). hidden_number s row minima) }
{
    before_4(judge_hidden(screen_at(state), row, minima))
}

/// The number of `can_skip`: 2 as it would answer, or 1 for C or D, else 4.
#[tactic(auto, unfolding(crate::specs::State::refused_at))]
pub fn refuse_skip(state: &StateWords, row: usize, rows: usize) -> u32
    ensures { result ≡ refused_at (words_in state.now) (λ (s : Numbers). skip_number s row rows) }
{
    before_4(judge_skip(screen_at(state), row, rows))
}
