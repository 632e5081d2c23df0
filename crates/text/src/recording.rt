//! The text that `rowlist` prints of a recording file.
ghost use Rattle.std.specs.Prelude.{◌≡◌, ◌≤◌, ◌/◌, length, take, IfOk, OnOk};
ghost use Rattle.sizes.specs.Sizes.{file-bytes, program-rows, program-buckets};
ghost use Rattle.sizes.specs.Refusals.{number_of};
ghost use Rattle.row.specs.Rows.{all-held};
ghost use Rattle.screen.specs.Screens.{setup-of};
ghost use Rattle.screen.specs.Lent.{tables_in, SameLent};
ghost use Rattle.file.specs.Held.{file_of};
ghost use Rattle.file.specs.Words.{words-in};
ghost use Rattle.text.specs.Files.{nothing, showed, file-out, refusing, showing, recording-text, size_of, file-size, good-bytes, no-width-of, no-width-number};

use crate::listing::{list_screen, refusal_line};
use file::{File, Recording, words_of_bytes};
use rect::NOWHERE;
use row::Rows;
use screen::{Lent, Screen, Setup, fresh};
use sizes::answers::Refusal;
use sizes::edition::Edition;
use sizes::width::Width;
use sizes::{FILE_BYTES, PROGRAM_ROWS};
use walk::bucket_recording;

/// How many words the longest file has.
pub const FILE_WORDS: usize = FILE_BYTES / 4;

/// A recording file as a program reads it: the edition that it is told to be of, and its bytes.
#[derive(Clone, Copy)]
pub struct FileBytes<'a> {
    pub edition: Edition,
    pub bytes: &'a [u8],
}

/// What is printed of a file: whether its recording is refused, how many bytes are written at the start of the lent ones, and the screen afterwards.
#[derive(Clone, Copy)]
pub struct FileText {
    pub answer: Result<(), Refusal>,
    pub bytes: usize,
    pub screen: Screen,
}

/// The rows of a file's screen, and the buckets in each.
#[derive(Clone, Copy, Debug, PartialEq, Eq)]
pub struct Size {
    pub rows: usize,
    pub buckets: usize,
}

/// The screen before a recording: no rows.
pub fn no_screen() -> Screen
    ensures { result ≡ nothing }
{
    fresh(NOWHERE, 1, 1, Width::W128)
}

/// What is printed of a refusal: its number's line, where it fits.
pub fn refuse(refusal: Refusal, screen: Screen, out: &mut [u8]) -> FileText
    ensures { showed result out.new ≡ refusing (number_of refusal) screen out.old }
{
    FileText {
        answer: Err(refusal),
        bytes: refusal_line(refusal.number(), out).unwrap_or(0),
        screen,
    }
}

// The lines of a screen.
fn show(screen: Screen, rows: &Rows<'_>, out: &mut [u8]) -> FileText
    ensures { showed result out.new ≡ showing screen (all-held rows.now) out.old }
{
    match list_screen(screen, rows, out) {
        Ok(bytes) => FileText {
            answer: Ok(()),
            bytes,
            screen,
        },
        Err(refusal) => refuse(refusal, screen, out),
    }
}

/// A file, walked into what the screen is asked to be, and its lines, or the number of its refusal. The lent tables have the lengths of
/// its screen, or the refusal is 4.
pub fn recording_text(file: File<'_>, setup: Setup, lent: &mut Lent<'_>, out: &mut [u8]) -> FileText
    ensures same { SameLent lent.old lent.new }
    ensures text { file-out (showed result out.new) (tables_in lent.new)
        ≡ recording-text (file_of file.entry) (setup-of setup) (tables_in lent.old) out.old }
{
    let mut screen = no_screen();
    if let Err(refusal) = bucket_recording(&mut screen, file, setup, lent) {
        return refuse(refusal, screen, out);
    }
    let rows = Rows {
        state: lent.rows,
        render_cmds: lent.render_cmds,
        depth_cmds: lent.depth_cmds,
    };
    show(screen, &rows, out)
}

/// The rows and buckets that a file asks for: 3 for its form, 2 for its viewport or more than 32 rows.
pub fn size_of(file: File<'_>, setup: Setup) -> Result<Size, Refusal>
    ensures value { result ≡ size_of (file_of file.entry) (setup-of setup) }
    ensures rows_le_program_rows { IfOk result (λ size. (size.rows ≤ program-rows) × (size.buckets ≤ program-buckets)) }
{
    let recording = Recording::read(file)?;
    let viewport = recording.viewport().viewport_in(setup.mode)?;
    let screen = fresh(viewport, setup.c, setup.d, setup.width);
    let rows = screen.rows();
    if PROGRAM_ROWS < rows {
        return Err(Refusal::BadViewport);
    }
    Ok(Size {
        rows,
        buckets: screen.buckets(),
    })
}

// At most 65,536 bytes, in whole words.
fn is_good_bytes(n: usize) -> bool
    ensures { result ≡ good-bytes n }
{
    n <= FILE_BYTES && n % 4 == 0
}

/// How a file is refused where the width asked for is none: 3 for its form, then 2.
pub fn no_width_of(file: File<'_>) -> Refusal
    ensures { number_of result ≡ no-width-of (file_of file.entry) }
{
    match Recording::read(file) {
        Ok(_) => Refusal::BadViewport,
        Err(refusal) => refusal,
    }
}

/// How a file's bytes are refused where the width asked for is none: 3 for bytes that are too many or no whole words, or for their form, then 2.
pub fn no_width_refusal(file: FileBytes<'_>) -> Refusal
    ensures { number_of result ≡ no-width-number file.entry.edition file.entry.bytes.now }
{
    if !is_good_bytes(file.bytes.len()) {
        return Refusal::BadForm;
    }
    let mut words = [0; FILE_WORDS];
    let n = words_of_bytes(file.bytes, &mut words);
    no_width_of(File {
        edition: file.edition,
        words: &words[..n],
    })
}

/// A file's words, put first in `words`, and the rows and buckets that its screen has: 3 for more than 65,536 bytes or no whole words, then as `size_of`.
pub fn read_file(
    file: FileBytes<'_>,
    setup: Setup,
    words: &mut [u32; FILE_WORDS],
) -> Result<Size, Refusal>
    ensures size { result ≡ file-size file.entry.edition file.entry.bytes.now (setup-of setup) }
    ensures words { OnOk result (take (length file.entry.bytes.now / 4) words.new ≡ words-in file.entry.bytes.now) }
    ensures short { OnOk result (length file.entry.bytes.now ≤ file-bytes) }
    ensures few { IfOk result (λ size. (size.rows ≤ program-rows) × (size.buckets ≤ program-buckets)) }
{
    if !is_good_bytes(file.bytes.len()) {
        return Err(Refusal::BadForm);
    }
    let n = words_of_bytes(file.bytes, words);
    size_of(
        File {
            edition: file.edition,
            words: &words[..n],
        },
        setup,
    )
}
