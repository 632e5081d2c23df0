//! The call that says why a tile of a recording shows what it shows.
ghost use Rattle.std.specs.Prelude.{◌≡◌, ◌&&◌, [], ◌∷◌, length, leb, eqb};
ghost use Rattle.sizes.specs.Refusals.{answer_number};
ghost use Rattle.rules.specs.Answers.{answer};
ghost use Rattle.tile.specs.Reasons.{reason-of};
ghost use Rattle.tile.specs.Explained.{reason_said};
ghost use Rattle.screen.specs.Lent.{SameLent};
ghost use Rattle.file.specs.Held.{file_of};
ghost use Rattle.host.specs.Asked.{told};
ghost use Rattle.host.specs.Held.{reason_in};
ghost use Rattle.host.specs.Called.{why_of, why_on, why_out};
ghost use Rattle.host.specs.Reasons.{reason-words, reason-size, result-left};

use crate::border::{refuse_recording, refuse_setup};
use crate::editions::read_file;
use crate::state::{SetupWords, StateWords, put_screen, read_setup, screen_of};
use file::File;
use screen::Lent;
use sizes::answers::Refusal;
use tile::{Asked, Reason, why};

/// Which row and tile of the recording's screen are asked about, from 0, and which attribute: a draw's (layer 0) or a layer's (1). Laid out as in C.
#[repr(C)]
#[derive(Clone, Copy, Debug, PartialEq, Eq)]
pub struct QuestionWords {
    pub row: u32,
    pub tile: u32,
    pub layer: u32,
    pub attribute: u32,
}

/// A reason's case (0 unknown attribute, 1 no segment, 2 cut away, 3 row untouched, 4 hidden, 5 shown); the attribute that hides or the place in the tile's
/// list, else 0; the asked attribute's panel, and that of the attribute that hides, else 0. Laid out as in C.
#[repr(C)]
#[derive(Clone, Copy, Debug, PartialEq, Eq)]
pub struct ReasonWords {
    pub kind: u32,
    pub number: u32,
    pub panel: u32,
    pub hider_panel: u32,
}

// The words of a reason.
const REASON: usize = 4;

// A reason in words.
fn words_of(reason: Reason) -> ReasonWords
    ensures { reason_in result ≡ reason-words (reason-of reason) }
{
    let (kind, number, panel, hider_panel) = match reason {
        Reason::UnknownAttribute => (0, 0, 0, 0),
        Reason::NoSegment(panel) => (1, 0, panel, 0),
        Reason::CutAway(panel) => (2, 0, panel, 0),
        Reason::RowUntouched(panel) => (3, 0, panel, 0),
        Reason::HiddenBy(by) => (4, by.attribute, by.panel, by.hider_panel),
        Reason::ShownAt(at) => (5, at.place, at.panel, 0),
    };
    ReasonWords {
        kind,
        number,
        panel,
        hider_panel,
    }
}

// Where the question is answered, the reason's words.
fn put_reason(told: Result<Reason, Refusal>, reason: &mut ReasonWords) -> u32
    ensures { answer result (reason_in reason.new) ≡ result-left (answer_number told) (reason_said told) (reason_in reason.old) }
{
    match told {
        Ok(found) => {
            *reason = words_of(found);
            0
        }
        Err(refusal) => refusal.number(),
    }
}

// A question says draw or layer, and has the words for its answer.
fn is_good_question(layer: u32, n: usize) -> bool
    ensures { result ≡ (leb layer 1 && eqb n reason-size) }
{
    layer <= 1 && n == REASON
}

// The question about a file whose edition is read. Its locals take some 55 KB of the stack: it is no part of a function that returns before them, since clang
// spoils a register there where it makes room for so many after a test.
#[inline(never)]
#[tactic(auto, using(crate::proofs::HostAsked::why_unasked))]
fn why_asked(
    state: &mut StateWords,
    file: File<'_>,
    setup: SetupWords,
    question: &QuestionWords,
    tables: &mut Lent<'_>,
    reason: &mut ReasonWords,
) -> u32
    ensures same { SameLent tables.old tables.new }
    ensures explained { answer result (why_out state.new tables.new reason.new)
        ≡ why_of (file_of file.entry) setup question.now state.old tables.old reason.old }
{
    let wanted = match read_setup(setup) {
        Ok(wanted) => wanted,
        Err(refusal) => return refuse_setup(file, refusal),
    };
    let good = is_good_question(question.layer, REASON);
    let Some(mut screen) = screen_of(state, good) else {
        return refuse_recording(state, file, wanted, tables);
    };
    let asked = Asked {
        layer: question.layer == 1,
        attribute: question.attribute,
    };
    let told = why(
        &mut screen,
        file,
        wanted,
        question.row,
        question.tile,
        asked,
        tables,
    );
    put_screen(state, screen);
    put_reason(told, reason)
}

/// A recording of an edition, 1 or 2, is bucketed, and answers for a paint's attribute or a layer's at one tile. Refused as the recording call, by 4 also where
/// layer is above 1; then by 12 off the screen.
#[unsafe(no_mangle)]
#[tactic(auto, using(crate::proofs::HostAsked::why_untold))]
pub extern "C" fn coarse_why(
    state: &mut StateWords,
    edition: u32,
    file: &[u32],
    setup: SetupWords,
    question: &QuestionWords,
    tables: &mut Lent<'_>,
    reason: &mut ReasonWords,
) -> u32
    ensures same { SameLent tables.old tables.new }
    ensures explained { answer result (why_out state.new tables.new reason.new)
        ≡ why_on (told edition file.now) setup question.now state.old tables.old reason.old }
{
    match read_file(edition, file) {
        Ok(file) => why_asked(state, file, setup, question, tables, reason),
        Err(refusal) => refusal.number(),
    }
}
