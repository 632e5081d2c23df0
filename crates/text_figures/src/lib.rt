//! What `figures` prints of recordings: from a file's bytes to its figures, and the lines that say figures. Parts: where a function asks something, its callers
//! have seen to it.
#![tactic(auto)]

ghost use Rattle.std.specs.Prelude.{◌≡◌, ◌≤◌, length, List, ℕ};
ghost use Rattle.screen.specs.Screens.{setup-of};
ghost use Rattle.rules_figures.specs.Lines.{of-bytes, named, figures-text, recording-line, total-line, many-line};
ghost use Rattle.tally.specs.Counts.{figures-of, Within, screen-most};
ghost use Rattle.text.specs.Files.{Usual};
ghost use Rattle.text.specs.Texts.{Writes};
ghost use Rattle.text_files.specs.Programs.{first};
ghost use Rattle.text_figures.specs.Rooms.{line-room};

use file::File;
use screen::Setup;
use sizes::answers::Refusal;
use tally::counts::Figures;
use tally::recordings::recording_figures;
use text::{FILE_WORDS, FileBytes, Out, Print, no_screen, print_first, read_file, refusal_line};
use text_files::tables::Tables;

/// How many bytes the longest line has.
pub const LINE_ROOM: usize = 208;

/// The figures of a recording file's bytes: refused where they are more than 65,536 or no whole words, else those of its recording, in tables that are lent to it.
pub fn file_figures(file: FileBytes<'_>, setup: Setup, tables: &mut Tables) -> Figures
    requires usual { Usual (setup-of setup) }
    ensures figures { figures-of result ≡ of-bytes file.entry.edition (setup-of setup) file.entry.bytes.now }
    ensures small { Within screen-most (figures-of result) }
{
    let mut words = [0; FILE_WORDS];
    let Ok(size) = read_file(file, setup, &mut words) else {
        return Figures::one_refused();
    };
    let mut lent = tables.lend(size.rows, size.buckets);
    let recording = File {
        edition: file.edition,
        words: &words[..file.bytes.len() / 4],
    };
    let mut screen = no_screen();
    recording_figures(recording, &mut screen, setup, &mut lent)
}

// Words, a space, a number.
fn print_named(out: &mut Out<'_>, words: &[u8], n: u64)
    ensures { Writes (named words.now n) out.old out.new }
{
    out.text(words);
    out.byte(b' ');
    out.digits(n, 20);
}

// The six figures, and the line feed.
fn print_figures(out: &mut Out<'_>, figures: Figures)
    ensures { Writes (figures-text (figures-of figures)) out.old out.new }
{
    print_named(out, b" asked", figures.asked);
    print_named(out, b" painted", figures.painted);
    print_named(out, b" hidden", figures.hidden);
    print_named(out, b" commands", figures.commands);
    print_named(out, b" fills", figures.fills);
    print_named(out, b" refused", figures.refused);
    out.byte(b'\n');
}

// The line of a recording, by its number in the list.
#[derive(Clone, Copy)]
struct RecordingLine {
    number: u64,
    figures: Figures,
}

impl Print for RecordingLine {
    ghost printed = { λ line. recording-line line.number (figures-of line.figures) };

    fn print(&self, out: &mut Out<'_>) {
        print_named(out, b"recording", self.number);
        print_figures(out, self.figures);
    }
}

// The line of all recordings.
#[derive(Clone, Copy)]
struct TotalLine {
    figures: Figures,
}

impl Print for TotalLine {
    ghost printed = { λ line. total-line (figures-of line.figures) };

    fn print(&self, out: &mut Out<'_>) {
        out.text(b"total");
        print_figures(out, self.figures);
    }
}

/// The line of recording i, put first; how long it is.
pub fn recording_text(i: u64, figures: Figures, out: &mut [u8]) -> usize
    requires { line-room ≤ length out.old }
    ensures value { result ≡ length (recording-line i (figures-of figures)) }
    ensures out_after { out.new ≡ first (recording-line i (figures-of figures)) out.old }
{
    print_first(&RecordingLine { number: i, figures }, out)
}

/// The line of all recordings, put first; how long it is.
pub fn total_text(figures: Figures, out: &mut [u8]) -> usize
    requires { line-room ≤ length out.old }
    ensures value { result ≡ length (total-line (figures-of figures)) }
    ensures out_after { out.new ≡ first (total-line (figures-of figures)) out.old }
{
    print_first(&TotalLine { figures }, out)
}

/// What is printed of too many recordings, put first; how long it is.
pub fn many_text(out: &mut [u8]) -> usize
    requires { line-room ≤ length out.old }
    ensures value { result ≡ length many-line }
    ensures out_after { out.new ≡ first many-line out.old }
{
    refusal_line(Refusal::BadRecord.number(), out).unwrap_or(0)
}
