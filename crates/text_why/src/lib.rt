//! What `why` prints: the reasons of a tile's attributes, in words. Parts: where a function asks something, its callers have seen to it.
#![tactic(auto)]

ghost use Rattle.std.specs.Prelude.{◌≡◌, ◌+◌, ◌*◌, ◌≤◌, length, take};
ghost use Rattle.sizes.specs.Sizes.{most-attrs, file-bytes, line-size, line-table};
ghost use Rattle.rules.specs.Lines.{rowlist-screen};
ghost use Rattle.rules_reason.specs.Answers.{panel-bytes, reason-text, reason-bytes, kind-text, attribute-line, kind-lines, why-words, why-text, question-line};
ghost use Rattle.screen.specs.Screens.{setup-of};
ghost use Rattle.rules.specs.Recording.{in-edition};
ghost use Rattle.file.specs.Held.{file_of};
ghost use Rattle.file.specs.Words.{words-in};
ghost use Rattle.text.specs.Texts.{Writes};
ghost use Rattle.tile.specs.Places.{Low};
ghost use Rattle.tile.specs.Reasons.{reason-of as said_of, asked_of};
ghost use Rattle.text.specs.Files.{Usual};
ghost use Rattle.text_files.specs.Programs.{first};
ghost use Rattle.text_why.specs.Questions.{question-of, read_by, ToldOf, answer-most};

use file::{File, Recording, words_of_bytes};
use screen::Setup;
use sizes::LINE_TABLE;
use sizes::answers::Refusal;
use text::lines::Refused;
use text::{FileBytes, Out, Print, print_first};
use text_files::list_file;
use text_files::tables::Tables;
use tile::{Asked, Reason, Tale, is_off_screen, reason_of, tell_tile};

/// What is asked of a tile: one attribute, or every attribute.
#[derive(Clone, Copy, Debug, PartialEq, Eq)]
pub enum Question {
    Every,
    One(Asked),
}

// How a reason ends.
fn print_panel(out: &mut Out<'_>, panel: u32)
    ensures { Writes (panel-bytes panel) out.old out.new }
{
    out.text(b", panel");
    out.number(panel);
}

// A reason in words.
fn print_words(out: &mut Out<'_>, reason: Reason)
    ensures { Writes (reason-text (said_of reason)) out.old out.new }
{
    match reason {
        Reason::UnknownAttribute => out.text(b"unknown attribute"),
        Reason::NoSegment(panel) => {
            out.text(b"no segment covers the tile");
            print_panel(out, panel);
        }
        Reason::CutAway(panel) => {
            out.text(b"cut away by a clip box");
            print_panel(out, panel);
        }
        Reason::RowUntouched(panel) => {
            out.text(b"row never touched by the closing layer");
            print_panel(out, panel);
        }
        Reason::HiddenBy(hidden) => {
            out.text(b"hidden by a newer depth fill, attribute");
            out.number(hidden.attribute);
            out.text(b" of panel");
            out.number(hidden.hider_panel);
            print_panel(out, hidden.panel);
        }
        Reason::ShownAt(shown) => {
            out.text(b"shown, place");
            out.number(shown.place);
            print_panel(out, shown.panel);
        }
    }
}

// .. and a line feed.
fn print_reason(out: &mut Out<'_>, reason: Reason)
    ensures { Writes (reason-bytes (said_of reason)) out.old out.new }
{
    print_words(out, reason);
    out.byte(b'\n');
}

fn print_kind(out: &mut Out<'_>, layer: bool)
    ensures { Writes (kind-text layer) out.old out.new }
{
    if layer {
        out.text(b"layer");
    } else {
        out.text(b"draw");
    }
}

// An attribute's line, by the n lines told of the tile: which it is, and its reason.
fn print_line(out: &mut Out<'_>, lines: &[u32], n: usize, asked: Asked)
    requires { (n ≤ most-attrs + most-attrs) × (line-size * n ≤ length lines.now) }
    ensures { Writes (attribute-line (read_by lines.now n) (asked_of asked)) out.old out.new }
{
    print_kind(out, asked.layer);
    out.number(asked.attribute);
    out.text(b": ");
    print_reason(out, reason_of(lines, n, asked));
}

// A line for each attribute of a kind.
fn print_kind_lines(out: &mut Out<'_>, lines: &[u32], n: usize, layer: bool, count: u32)
    requires { (n ≤ most-attrs + most-attrs) × (line-size * n ≤ length lines.now) }
    ensures { Writes (kind-lines (read_by lines.now n) layer count) out.old out.new }
{
    for attribute in 0..count {
        print_line(out, lines, n, Asked { layer, attribute });
    }
}

// The answer to a question, from the lines told of the tile.
#[derive(Clone, Copy)]
struct Answer<'a> {
    lines: &'a [u32],
    tale: Tale,
    question: Question,
}

impl Print for Answer<'_> {
    ghost use Rattle.text_why.specs.Told.{answer-text};

    ghost printed = { λ a. answer-text a };

    ghost ready = { λ a. Low a.tale × (length a.lines.now ≡ line-table) };

    fn print(&self, out: &mut Out<'_>) {
        let tale = self.tale;
        let n = (tale.paints + tale.layers) as usize;
        match self.question {
            Question::Every => {
                print_kind_lines(out, self.lines, n, false, tale.paints);
                print_kind_lines(out, self.lines, n, true, tale.layers);
            }
            Question::One(asked) => print_reason(out, reason_of(self.lines, n, asked)),
        }
    }
}

// The story of a tile of a recording that is accepted, told into the lines; 12 for a tile off the screen.
fn tell_words(
    file: File<'_>,
    setup: Setup,
    row: u32,
    tile: u32,
    lines: &mut [u32],
) -> Result<Tale, Refusal>
    requires accepted { (rowlist-screen (setup-of setup) (file_of file)).number ≡ 0 }
    requires room { length lines.old ≡ line-table }
    ensures { ToldOf (setup-of setup) (file_of file.entry) row tile result lines.new }
{
    let recording = Recording::read(file)?;
    let viewport = recording.viewport().viewport_in(setup.mode)?;
    if is_off_screen(viewport, row, tile) {
        return Err(Refusal::BadRun);
    }
    tell_tile(&recording, viewport, setup.width, row, tile, lines)
}

// The text of a question about a recording that is accepted, from its file, put first; how long it is.
fn words_text(
    file: File<'_>,
    setup: Setup,
    row: u32,
    tile: u32,
    question: Question,
    out: &mut [u8],
) -> usize
    requires accepted { (rowlist-screen (setup-of setup) (file_of file)).number ≡ 0 }
    requires room { answer-most ≤ length out.old }
    ensures value { result ≡ length (why-words (setup-of setup) (file_of file.entry) row tile (question-of question)) }
    ensures out_after { out.new ≡ first (why-words (setup-of setup) (file_of file.entry) row tile (question-of question)) out.old }
{
    let mut lines = [0u32; LINE_TABLE];
    match tell_words(file, setup, row, tile, &mut lines) {
        Ok(tale) => {
            let answer = Answer {
                lines: &lines,
                tale,
                question,
            };
            print_first(&answer, out)
        }
        Err(refusal) => {
            let line = Refused {
                number: refusal.number(),
            };
            print_first(&line, out)
        }
    }
}

// The same, from its bytes.
fn accepted_text(
    file: FileBytes<'_>,
    setup: Setup,
    row: u32,
    tile: u32,
    question: Question,
    out: &mut [u8],
) -> usize
    requires short { length file.bytes.now ≤ file-bytes }
    requires accepted { (rowlist-screen (setup-of setup) (in-edition file.edition (words-in file.bytes.now))).number ≡ 0 }
    requires room { answer-most ≤ length out.old }
    ensures value { result ≡ length
        (why-words (setup-of setup) (in-edition file.entry.edition (words-in file.entry.bytes.now)) row tile (question-of question)) }
    ensures out_after { out.new ≡ first
        (why-words (setup-of setup) (in-edition file.entry.edition (words-in file.entry.bytes.now)) row tile (question-of question)) out.old }
{
    let mut words = [0u32; 16384];
    let n = words_of_bytes(file.bytes, &mut words);
    let recording = File {
        edition: file.edition,
        words: &words[..n],
    };
    words_text(recording, setup, row, tile, question, out)
}

/// The text that `why` prints of a question about a file's bytes, put first; how long it is. The room is that of the longest text of `rowlist`,
/// which is written there before; what stands after the text is free. The tables take the file's screen.
pub fn why_text(
    file: FileBytes<'_>,
    setup: Setup,
    row: u32,
    tile: u32,
    question: Question,
    tables: &mut Tables,
    out: &mut [u8],
) -> usize
    requires { Usual (setup-of setup) × (264256 ≤ length out.old) }
    ensures value { result ≡ length (why-text file.entry.edition (setup-of setup) file.entry.bytes.now row tile (question-of question)) }
    ensures out_after { take result out.new ≡ why-text file.entry.edition (setup-of setup) file.entry.bytes.now row tile (question-of question) }
{
    let text = list_file(file, setup, tables, out);
    if text.answer.is_err() {
        return text.bytes;
    }
    accepted_text(file, setup, row, tile, question, out)
}

// The line before a question's answer in a stream.
#[derive(Clone, Copy)]
struct QuestionLine {
    number: u64,
}

impl Print for QuestionLine {
    ghost printed = { λ line. question-line line.number };

    fn print(&self, out: &mut Out<'_>) {
        out.text(b"question ");
        out.digits(self.number, 20);
        out.byte(b'\n');
    }
}

/// The line before the answer to question i of a stream, put first; how long it is.
pub fn question_text(i: u64, out: &mut [u8]) -> usize
    requires { 30 ≤ length out.old }
    ensures value { result ≡ length (question-line i) }
    ensures out_after { out.new ≡ first (question-line i) out.old }
{
    print_first(&QuestionLine { number: i }, out)
}
