//! What `why` does with its arguments, from its input to its output: it prints why a tile of a recording shows what it shows, for one attribute, for every
//! attribute, or for each question of a stream. A question of a stream is the file's length in bytes, the row and the tile, each a little-endian u32, then the
//! file; a length past the stream's end takes what is left.
#![tactic(auto)]

ghost use Rattle.std.specs.Prelude.{◌≡◌, ◌≤◌, ◌↔◌, ◌⊎◌, ⊤, false, length, map, take, string_bytes, None, IfSome, IfErr, OnOk, IsErrAnd};
ghost use Rattle.std.specs.Io.KnownBytes.{Appends};
ghost use Rattle.rules_reason.specs.Answers.{question-line};
ghost use Rattle.text_programs.specs.Rooms.{file-room};
ghost use Rattle.text_files.specs.Rooms.{text-room};
ghost use Rattle.text_programs.specs.Failures.{IsOfWriting, IsUsage, IsUnwritten, Begins};
ghost use Rattle.text_programs.specs.Arguments.{asked_about, read_arguments, wanted_of};
ghost use Rattle.text_programs.specs.Streams.{PrintsFirst};
ghost use Rattle.text_tiles.specs.Requests.{IsOfFile, IsOfStream};
ghost use Rattle.run_why.specs.Requests.{ask_of, AsksOfFile, AsksOfStream};
ghost use Rattle.run_why.specs.Printed.{about, answer, item_answer, reply, printed, item_of};

use crate::arguments::{Ask, read_ask};
use std::alloc::Global;
use std::io::{Read, Write};
use text::FileBytes;
use text_files::tables::{Tables, text_buffer};
use text_files::{no_edition_text, no_width_text, usual};
use text_programs::about::{asked_about, print_about};
use text_programs::failure::{Failure, Stop};
use text_programs::file_buffer;
use text_programs::options::{Reading, Want, read_options};
use text_programs::usage::{SCREEN_OPTIONS, Usage};
use text_tiles::arguments::{TilePlace, wrong_request};
use text_tiles::{Answers, answer_request};
use text_why::{Question, question_text, why_text};

mod arguments;

/// What it says of itself where it is asked.
pub const USAGE: Usage = Usage {
    program: "why",
    calls: "usage: why [--snap] [--width N] [--edition N] ROW TILE [draw N | layer N] < FILE\n       why [--snap] [--width N] [--edition N] --stream < STREAM\n\
        ROW and TILE count from 0 on the screen; draw N, layer N: the attribute asked about, every one without it\n\
        options, before the other arguments, in any order; the last of a repeated one counts:\n",
    options: "",
    screen: SCREEN_OPTIONS,
};

// What is wanted, what is asked, and the tables that take a file's screen.
#[derive(Drop)]
struct Reasons<'a> {
    want: Want,
    question: Question,
    tables: &'a mut Tables,
}

// What is wanted, put first; how long it is.
fn wanted_text(
    file: &[u8],
    want: Want,
    question: Question,
    place: TilePlace,
    tables: &mut Tables,
    out: &mut [u8],
) -> usize
    requires room { text-room ≤ length out.old }
    ensures value { result ≡ length (answer (wanted_of want) question place file.now) }
    ensures out_after { take result out.new ≡ answer (wanted_of want) question place file.now }
{
    match want.reading {
        Reading::Screen(view) => why_text(
            FileBytes {
                edition: view.edition,
                bytes: file,
            },
            usual(view.mode, view.width),
            place.row,
            place.tile,
            question,
            tables,
            out,
        ),
        Reading::NoWidth(edition) => {
            let file = FileBytes {
                edition,
                bytes: file,
            };
            no_width_text(file, out)
        }
        Reading::NoEdition => no_edition_text(out),
    }
}

impl Answers for Reasons<'_> {
    ghost text = { λ reasons p fs. answer (wanted_of reasons.want) reasons.question p fs };

    ghost line = { λ i. question-line i };

    ghost ready = { λ _. ⊤ };

    ghost file_room = { file-room };

    ghost text_room = { text-room };

    fn put_line(&self, i: u64, out: &mut [u8]) -> usize {
        question_text(i, out)
    }

    fn put_text(&mut self, file: &[u8], place: TilePlace, out: &mut [u8]) -> usize {
        wanted_text(file, self.want, self.question, place, self.tables, out)
    }
}

// What is asked of the input, answered in the program's own tables and buffers, made once.
fn answer_input<R: Read, W: Write>(
    alloc: Global,
    input: &mut R,
    output: &mut W,
    want: Want,
    ask: Ask,
) -> Result<(), Failure>
    ensures ok { OnOk result (IfSome (R.remaining input.old) (λ bytes.
        Appends (W.contents output.old) (W.contents output.new) (reply (wanted_of want) ask bytes))) }
    ensures begun { IfSome (R.remaining input.old) (λ bytes.
        Begins (W.contents output.old) (W.contents output.new) (reply (wanted_of want) ask bytes)) }
    ensures unread { IsOfFile ask.request → IfErr result (λ e. IsOfWriting e ⊎ (output.new ≡ output.old)) }
    ensures whole { IsOfStream ask.request → IfErr result (λ e. IsOfWriting e
        ⊎ PrintsFirst (item_answer (wanted_of want) ask.question) 12 (R.remaining input.old) (W.contents output.old) (W.contents output.new)) }
{
    let mut tables = Tables::new(alloc)?;
    let mut text = text_buffer(alloc)?;
    let mut buffer = file_buffer(alloc)?;
    let reasons = Reasons {
        want,
        question: ask.question,
        tables: &mut tables,
    };
    answer_request(
        input,
        output,
        ask.request,
        buffer.as_mut_slice(),
        text.as_mut_slice(),
        reasons,
    )
}

/// Prints what the arguments ask for, over any input and output: its usage, its version, the answer about the file on the input, or the answers to its stream.
pub fn run<'a, R: Read, W: Write>(
    alloc: Global,
    args: &'a [String],
    input: &mut R,
    output: &mut W,
) -> Result<(), Stop<'a>>
    ensures usage { IsErrAnd result IsUsage
        ↔ ((asked_about (map string_bytes args.now) ≡ None) × (ask_of (read_arguments false (map string_bytes args.now)).others ≡ None)) }
    ensures untouched { IfErr result (λ stop. IsUsage stop → (input.new ≡ input.old) × (output.new ≡ output.old)) }

    ensures printed { OnOk result (IfSome (R.remaining input.old) (λ bytes.
        Appends (W.contents output.old) (W.contents output.new) (printed (map string_bytes args.now) bytes))) }
    ensures begun { IfSome (R.remaining input.old) (λ bytes.
        Begins (W.contents output.old) (W.contents output.new) (printed (map string_bytes args.now) bytes)) }

    // Whatever fails but a write leaves nothing of a file's answer; of a stream it leaves the first answers, each whole.
    ensures unread { AsksOfFile (map string_bytes args.now) → IfErr result (λ stop. IsUnwritten stop ⊎ (output.new ≡ output.old)) }
    ensures whole { AsksOfStream (map string_bytes args.now) → IfErr result (λ stop. IsUnwritten stop
        ⊎ PrintsFirst (item_of (map string_bytes args.now)) 12 (R.remaining input.old) (W.contents output.old) (W.contents output.new)) }

    // Asked about itself, it prints that whatever the input is.
    ensures about { IfSome (asked_about (map string_bytes args.now)) (λ asked.
        (input.new ≡ input.old) × OnOk result (Appends (W.contents output.old) (W.contents output.new) (about asked))) }
{
    if let Some(about) = asked_about(args) {
        print_about(alloc, output, &USAGE, about)?;
        return Ok(());
    }
    let options = read_options(args, false);
    match read_ask(options.others) {
        Ok(ask) => {
            answer_input(alloc, input, output, options.want, ask)?;
            Ok(())
        }
        Err(wrong) => Err(Stop::Usage(wrong_request(options.others, wrong))),
    }
}
