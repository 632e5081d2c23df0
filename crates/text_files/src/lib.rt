//! What the programs print of a recording file's bytes, of either edition, and the tables that they lend to it. Parts: where a function asks something, the
//! programs have seen to it.
#![tactic(auto)]

ghost use Rattle.std.specs.Prelude.{◌≡◌, ◌≤◌, length};
ghost use Rattle.sizes.specs.Refusals.{answer_number};
ghost use Rattle.rules.specs.Lines as rule;
ghost use Rattle.rect.specs.Rects.{mode_of};
ghost use Rattle.screen.specs.Screens.{setup-of};
ghost use Rattle.text.specs.Files.{Usual, showed, bytes-text};
ghost use Rattle.text_files.specs.Programs.{rowlist-number, rowlist-text, no-width-text, no-edition-text, first};
ghost use Rattle.text_files.specs.Rooms.{text-room};

use crate::tables::Tables;
use file::File;
use rect::Mode;
use screen::Setup;
use sizes::answers::Refusal;
use sizes::width::Width;
use sizes::{PROGRAM_ROOM, PROGRAM_ROWS};
use text::{
    FILE_WORDS, FileBytes, FileText, no_screen, no_width_refusal, read_file, recording_text,
    refusal_line, refuse,
};

pub mod tables;

/// Bytes of the longest text of a screen's rows, or of a tile's reasons.
pub const TEXT_ROOM: usize = 64 + PROGRAM_ROWS * (64 * (1 + 2 * PROGRAM_ROOM as usize));

/// Whether the recording is refused, and how many bytes are written, at the start of the lent ones.
#[derive(Clone, Copy)]
pub struct Listed {
    pub answer: Result<(), Refusal>,
    pub bytes: usize,
}

/// What every program asks of a screen: room for 64 commands and 64 depth fills a row.
pub fn usual(mode: Mode, width: Width) -> Setup
    ensures usual { Usual (setup-of result) }
    ensures value { setup-of result ≡ rule.usual (mode_of mode) width }
{
    Setup {
        c: PROGRAM_ROOM,
        d: PROGRAM_ROOM,
        mode,
        width,
    }
}

/// What `rowlist` prints of a file's bytes, in any setup and as far as there is room: 3 for more than 65,536 bytes or no whole words, then 3 and 2 by the
/// size of its screen, then what its recording call answers. It is put first; how long it is, and the screen.
pub fn file_text(file: FileBytes<'_>, setup: Setup, tables: &mut Tables, out: &mut [u8]) -> FileText
    ensures { showed result out.new ≡ bytes-text file.entry.edition file.entry.bytes.now (setup-of setup) out.old }
{
    let mut words = [0; FILE_WORDS];
    match read_file(file, setup, &mut words) {
        Ok(size) => {
            let mut lent = tables.lend(size.rows, size.buckets);
            let recording = File {
                edition: file.edition,
                words: &words[..file.bytes.len() / 4],
            };
            recording_text(recording, setup, &mut lent, out)
        }
        Err(refusal) => refuse(refusal, no_screen(), out),
    }
}

/// The text that `rowlist` prints of a file's bytes, put first; how long it is, and the recording's answer. The room is that of the longest text.
pub fn list_file(file: FileBytes<'_>, setup: Setup, tables: &mut Tables, out: &mut [u8]) -> Listed
    requires { Usual (setup-of setup) × (text-room ≤ length out.old) }
    ensures number_value { (answer_number result.answer ≡ rowlist-number file.entry.edition (setup-of setup) file.entry.bytes.now)
        × (result.bytes ≡ length (rowlist-text file.entry.edition (setup-of setup) file.entry.bytes.now)) }
    ensures out_after { out.new ≡ first (rowlist-text file.entry.edition (setup-of setup) file.entry.bytes.now) out.old }
{
    let text = file_text(file, setup, tables, out);
    Listed {
        answer: text.answer,
        bytes: text.bytes,
    }
}

/// The same; how long it is.
pub fn rowlist_text(file: FileBytes<'_>, setup: Setup, tables: &mut Tables, out: &mut [u8]) -> usize
    requires usual { Usual (setup-of setup) }
    requires room { text-room ≤ length out.old }
    ensures value { result ≡ length (rowlist-text file.entry.edition (setup-of setup) file.entry.bytes.now) }
    ensures out_after { out.new ≡ first (rowlist-text file.entry.edition (setup-of setup) file.entry.bytes.now) out.old }
{
    list_file(file, setup, tables, out).bytes
}

/// What the programs print of a file's bytes where the width asked for is none, put first; how long it is.
pub fn no_width_text(file: FileBytes<'_>, out: &mut [u8]) -> usize
    requires { 64 ≤ length out.old }
    ensures value { result ≡ length (no-width-text file.entry.edition file.entry.bytes.now) }
    ensures out_after { out.new ≡ first (no-width-text file.entry.edition file.entry.bytes.now) out.old }
{
    refusal_line(no_width_refusal(file).number(), out).unwrap_or(0)
}

/// What the programs print of every file where the edition asked for is none, put first; how long it is.
pub fn no_edition_text(out: &mut [u8]) -> usize
    requires { 64 ≤ length out.old }
    ensures value { result ≡ length no-edition-text }
    ensures out_after { out.new ≡ first no-edition-text out.old }
{
    refusal_line(Refusal::BadForm.number(), out).unwrap_or(0)
}
