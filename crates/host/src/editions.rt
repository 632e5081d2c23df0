//! The editions of a recording file: which of them a host's number says, and the calls that convert a file from one to the other.
ghost use Rattle.std.specs.Prelude.{◌≡◌};
ghost use Rattle.rules.specs.Answers.{answer};
ghost use Rattle.host.specs.Asked.{told, told_file, told-for};
ghost use Rattle.host.specs.Held.{one};
ghost use Rattle.host.specs.Editions.{asked_mode, mode-for, count-left, two_call, one_call};

use crate::border::refuse_setup;
use crate::state::mode_at;
use convert::{to_edition_one, to_edition_two};
use file::File;
use rect::Mode;
use sizes::answers::Refusal;
use sizes::edition::Edition;

/// The file of such words, in the edition that a number says: 1 or 2. BadForm, 3, where it is neither.
#[tactic(auto, unfolding(crate::specs::Asked::told_file))]
pub fn read_file(edition: u32, words: &[u32]) -> Result<File<'_>, Refusal>
    ensures { told-for result ≡ told_file (told edition words.now) }
{
    let edition = Edition::try_from(edition)?;
    Ok(File { edition, words })
}

// The mode that a word says, 0 or 1. BadRecord, 4, where it is neither.
#[tactic(auto, unfolding(crate::specs::Editions::asked_mode))]
fn read_mode(word: u32) -> Result<Mode, Refusal>
    ensures { mode-for result ≡ asked_mode word }
{
    if 1 < word {
        return Err(Refusal::BadRecord);
    }
    Ok(mode_at(word))
}

/// How many words a converted file has, or entries a tile's list, where the call is not refused.
pub fn put_count(done: Result<usize, Refusal>, count: &mut usize) -> u32
    ensures { answer result (one count.new) ≡ count-left (one count.old) done }
{
    match done {
        Ok(n) => {
            *count = n;
            0
        }
        Err(refusal) => refusal.number(),
    }
}

/// A file of edition one as one of edition two, put first in a list; how many words it has. Its viewport is read in a mode, 0 or 1. Another mode is refused
/// by 4, after 3 for the file's form; the rest as `to_edition_two`.
#[unsafe(no_mangle)]
#[tactic(auto, using(crate::proofs::Conversions::mode_unasked))]
pub extern "C" fn coarse_to_edition_two(
    file: &[u32],
    mode: u32,
    out: &mut [u32],
    words: &mut usize,
) -> u32
    ensures { answer result (out.new, one words.new) ≡ two_call file.now mode out.old (one words.old) }
{
    let mode = match read_mode(mode) {
        Ok(mode) => mode,
        Err(refusal) => return refuse_setup(File::in_one(file), refusal),
    };
    put_count(to_edition_two(file, mode, out), words)
}

/// A file of edition two as one of edition one, likewise; by 15, before 14, where a draw or a layer has a panel.
#[unsafe(no_mangle)]
#[tactic(auto, using(crate::proofs::Conversions::mode_unasked))]
pub extern "C" fn coarse_to_edition_one(
    file: &[u32],
    mode: u32,
    out: &mut [u32],
    words: &mut usize,
) -> u32
    ensures { answer result (out.new, one words.new) ≡ one_call file.now mode out.old (one words.old) }
{
    let mode = match read_mode(mode) {
        Ok(mode) => mode,
        Err(refusal) => {
            let edition = Edition::Two;
            return refuse_setup(
                File {
                    edition,
                    words: file,
                },
                refusal,
            );
        }
    };
    put_count(to_edition_one(file, mode, out), words)
}
