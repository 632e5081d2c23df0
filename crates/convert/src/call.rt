//! The two conversions. Both are one function over two editions.
ghost use Rattle.std.specs.Prelude.{◌≡◌, ◌≤◌, length, OnErr, IfOk};
ghost use Rattle.sizes.specs.Refusals.{answer_number};
ghost use Rattle.rules.specs.Conversions.{convert-call};
ghost use Rattle.rect.specs.Rects.{mode_of};
ghost use Rattle.file.specs.Held.{file_of};
ghost use Rattle.convert.specs.Placed.{placed, put_first, as_two, as_one};

use crate::sections::{converted_length, is_kept, put_file};
use file::{File, Recording};
use rect::Mode;
use sizes::answers::Refusal;
use sizes::edition::Edition;

// A file as one of edition `to`, put first in `out`; how many words it has. Every record is judged, nothing is walked.
fn convert(file: File<'_>, mode: Mode, to: Edition, out: &mut [u32]) -> Result<usize, Refusal>
    ensures { placed result out.new ≡ put_first (convert-call (mode_of mode) to (length out.old) (file_of file.entry)) out.old }
{
    let recording = Recording::read(file)?;
    recording.viewport().viewport_in(mode)?;
    recording.judge()?;
    if !is_kept(file.words, file.edition, to) {
        return Err(Refusal::HasPanels);
    }
    let length = converted_length(file.words, file.edition, to);
    if out.len() < length {
        return Err(Refusal::NoRoom);
    }
    put_file(file.words, file.edition, to, out);
    Ok(length)
}

/// A file of edition one as one of edition two, each panel 0, put first in `out`; how many words it has. Refused, all of `out` stays: BadForm, 3; BadViewport,
/// 2, for a viewport that is bad as the mode reads it, however many rows it has; BadRecord, 4; BadOrder, 5; NoRoom, 14.
pub fn to_edition_two(file: &[u32], mode: Mode, out: &mut [u32]) -> Result<usize, Refusal>
    ensures converted { placed result out.new ≡ put_first (as_two mode file.now out.old) out.old }
    ensures refused { answer_number result ≡ (as_two mode file.now out.old).number }
    ensures unchanged { OnErr result (out.new ≡ out.old) }
    ensures words { IfOk result (λ n. (n ≡ length (as_two mode file.now out.old).value)) }
    ensures room { IfOk result (λ n. n ≤ length out.old) }
{
    convert(File::in_one(file), mode, Edition::Two, out)
}

/// A file of edition two as one of edition one, which has no words for panels, put first in `out`; how many words it has. Refused as to edition two, and after
/// BadOrder, 5, by HasPanels, 15, for a panel that is not 0 in a draw or a layer, also in one that no walk reaches.
pub fn to_edition_one(file: &[u32], mode: Mode, out: &mut [u32]) -> Result<usize, Refusal>
    ensures converted { placed result out.new ≡ put_first (as_one mode file.now out.old) out.old }
    ensures refused { answer_number result ≡ (as_one mode file.now out.old).number }
    ensures unchanged { OnErr result (out.new ≡ out.old) }
    ensures words { IfOk result (λ n. (n ≡ length (as_one mode file.now out.old).value)) }
    ensures room { IfOk result (λ n. n ≤ length out.old) }
{
    let file = File {
        edition: Edition::Two,
        words: file,
    };
    convert(file, mode, Edition::One, out)
}

#[cfg(test)]
mod tests;
