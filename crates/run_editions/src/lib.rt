//! What `editions` does with its arguments, from its input to its output: it writes the file on the input, or each file of a stream, in the other edition.
//! Each file of a stream stands after its length in bytes, a little-endian u32; a length past the stream's end takes what is left. So does each file that is
//! written; for a refused one there are two words, 4,294,967,295 and the refusal's number.
#![tactic(auto)]

ghost use Rattle.std.specs.Prelude.{◌≡◌, ◌↔◌, ◌⊎◌, [], length, map, string_bytes, None, IfOk, IfSome, IfErr, OnOk, IsErrAnd};
ghost use Rattle.std.specs.Io.KnownBytes.{Appends};
ghost use Rattle.rules.specs.Conversions.{stream-item};
ghost use Rattle.rect.specs.Rects.{mode_of};
ghost use Rattle.text_programs.specs.Arguments.{asked_about};
ghost use Rattle.text_programs.specs.Streams.{PrintsFirst};
ghost use Rattle.text_programs.specs.Failures.{IsOfReading, IsOfWriting, IsUsage, IsUnwritten, Begins};
ghost use Rattle.text_long.specs.Long.{long-room};
ghost use Rattle.run_editions.specs.Conversions.{Ready};
ghost use Rattle.run_editions.specs.Requests.{ask_of, read_arguments, IsOfFile, IsOfStream, AsksOfFile, AsksOfStream};
ghost use Rattle.run_editions.specs.Printed.{about, job_becomes, item_asked, answered, printed, number_asked, outcome_number, item_of};

use crate::arguments::{Ask, read_ask, read_options};
use crate::conversion::{Desk, Job, converted_buffer, item_buffer};
use rect::Mode;
use sizes::answers::Refusal;
use std::alloc::Global;
use std::io::{Read, Write};
use text_long::{long_buffer, word_buffer};
use text_programs::about::{asked_about, print_about};
use text_programs::failure::{Failure, Stop};
use text_programs::stream::{Replies, answer_all};
use text_programs::usage::Usage;
use text_programs::{read_all, write_text};

mod arguments;
mod bytes;
mod conversion;

/// What it says of itself where it is asked.
pub const USAGE: Usage = Usage {
    program: "editions",
    calls: "usage: editions [--snap] new|old < FILE > CONVERTED\n       editions [--snap] --stream new|old < STREAM > CONVERTED\n\
        new: a file of edition one becomes one of edition two; old: one of edition two becomes one of edition one\n\
        options, before the other arguments:\n",
    options: "  --snap       judge the viewport as snapping mode reads it\n",
    screen: "",
};

// The head of a file in a stream: its length in bytes.
const HEAD: usize = 4;

/// How it ended: what was asked is done, or the file is refused, and nothing is written.
#[derive(Clone, Copy, Debug, PartialEq, Eq)]
pub enum Outcome {
    Done,
    Refused(Refusal),
}

// What each file of a stream is converted by: how, and what in.
#[derive(Drop)]
struct Converter<'a> {
    job: Job,
    desk: Desk<'a>,
}

impl Replies for Converter<'_> {
    ghost reply = { λ converter i x. stream-item (job_becomes converter.job x.file) };

    ghost ready = { λ converter. Ready converter.desk };

    ghost room = { long-room };

    fn answer<W: Write>(
        &mut self,
        _i: u64,
        _head: &[u8],
        file: &[u8],
        output: &mut W,
    ) -> Result<(), Failure> {
        let n = self.desk.convert_item(file, self.job);
        write_text(output, &self.desk.text[..n])
    }
}

// The file on the input. Nothing is written before all of it is read; where writing fails, a beginning of the converted file is written.
fn convert_input<R: Read, W: Write>(
    input: &mut R,
    output: &mut W,
    job: Job,
    buffer: &mut [u8],
    desk: &mut Desk<'_>,
) -> Result<Outcome, Failure>
    requires { Ready desk.old × (length buffer.old ≡ long-room) }
    ensures ok { OnOk result (IfSome (R.remaining input.old) (λ file.
        Appends (W.contents output.old) (W.contents output.new) (job_becomes job file).value)) }
    ensures number { IfOk result (λ outcome. IfSome (R.remaining input.old) (λ file. outcome_number outcome ≡ (job_becomes job file).number)) }
    ensures begun { IfSome (R.remaining input.old) (λ file.
        Begins (W.contents output.old) (W.contents output.new) (job_becomes job file).value) }
    ensures unread { IfErr result (λ e. IsOfWriting e ⊎ (output.new ≡ output.old)) }
    ensures err { IfErr result (λ e. IsOfReading e ⊎ IsOfWriting e) }
{
    let n = read_all(input, buffer)?;
    match desk.convert_file(&buffer[..n], job) {
        Ok(k) => {
            write_text(output, &desk.text[..k])?;
            Ok(Outcome::Done)
        }
        Err(refusal) => Ok(Outcome::Refused(refusal)),
    }
}

// What is asked, in buffers that are lent.
fn answer_ask<R: Read, W: Write>(
    input: &mut R,
    output: &mut W,
    mode: Mode,
    ask: Ask,
    buffer: &mut [u8],
    desk: Desk<'_>,
) -> Result<Outcome, Failure>
    requires { Ready desk × (length buffer.old ≡ long-room) }
    ensures ok { OnOk result (IfSome (R.remaining input.old) (λ bytes.
        Appends (W.contents output.old) (W.contents output.new) (answered (mode_of mode) ask bytes).value)) }
    ensures number { IfOk result (λ outcome. IfSome (R.remaining input.old) (λ bytes. outcome_number outcome ≡ (answered (mode_of mode) ask bytes).number)) }
    ensures begun { IfSome (R.remaining input.old) (λ bytes.
        Begins (W.contents output.old) (W.contents output.new) (answered (mode_of mode) ask bytes).value) }
    ensures unread { IsOfFile ask → IfErr result (λ e. IsOfWriting e ⊎ (output.new ≡ output.old)) }
    ensures whole { IsOfStream ask → IfErr result (λ e. IsOfWriting e
        ⊎ PrintsFirst (item_asked (mode_of mode) ask) 4 (R.remaining input.old) (W.contents output.old) (W.contents output.new)) }
    ensures err { IfErr result (λ e. IsOfReading e ⊎ IsOfWriting e) }
{
    let mut desk = desk;
    match ask {
        Ask::File(way) => convert_input(input, output, Job { mode, way }, buffer, &mut desk),
        Ask::Stream(way) => {
            let job = Job { mode, way };
            let mut converter = Converter { job, desk };
            let mut head = [0u8; HEAD];
            answer_all(input, output, &mut head, buffer, &mut converter)?;
            Ok(Outcome::Done)
        }
    }
}

// The same, in the program's own buffers.
fn answer_input<R: Read, W: Write>(
    alloc: Global,
    input: &mut R,
    output: &mut W,
    mode: Mode,
    ask: Ask,
) -> Result<Outcome, Failure>
    ensures ok { OnOk result (IfSome (R.remaining input.old) (λ bytes.
        Appends (W.contents output.old) (W.contents output.new) (answered (mode_of mode) ask bytes).value)) }
    ensures number { IfOk result (λ outcome. IfSome (R.remaining input.old) (λ bytes. outcome_number outcome ≡ (answered (mode_of mode) ask bytes).number)) }
    ensures begun { IfSome (R.remaining input.old) (λ bytes.
        Begins (W.contents output.old) (W.contents output.new) (answered (mode_of mode) ask bytes).value) }
    ensures unread { IsOfFile ask → IfErr result (λ e. IsOfWriting e ⊎ (output.new ≡ output.old)) }
    ensures whole { IsOfStream ask → IfErr result (λ e. IsOfWriting e
        ⊎ PrintsFirst (item_asked (mode_of mode) ask) 4 (R.remaining input.old) (W.contents output.old) (W.contents output.new)) }
{
    let mut words = word_buffer(alloc)?;
    let mut converted = converted_buffer(alloc)?;
    let mut text = item_buffer(alloc)?;
    let mut buffer = long_buffer(alloc)?;
    let desk = Desk {
        words: words.as_mut_slice(),
        converted: converted.as_mut_slice(),
        text: text.as_mut_slice(),
    };
    answer_ask(input, output, mode, ask, buffer.as_mut_slice(), desk)
}

/// Writes what the arguments ask for, over any input and output: its usage, its version, the file on the input in the other edition, or the files of its
/// stream.
pub fn run<'a, R: Read, W: Write>(
    alloc: Global,
    args: &'a [String],
    input: &mut R,
    output: &mut W,
) -> Result<Outcome, Stop<'a>>
    ensures usage { IsErrAnd result IsUsage
        ↔ ((asked_about (map string_bytes args.now) ≡ None) × (ask_of (read_arguments (map string_bytes args.now)).others ≡ None)) }
    ensures untouched { IfErr result (λ stop. IsUsage stop → (input.new ≡ input.old) × (output.new ≡ output.old)) }

    ensures printed { OnOk result (IfSome (R.remaining input.old) (λ bytes.
        Appends (W.contents output.old) (W.contents output.new) (printed (map string_bytes args.now) bytes))) }
    ensures number { IfOk result (λ outcome. IfSome (R.remaining input.old) (λ bytes.
        outcome_number outcome ≡ number_asked (map string_bytes args.now) bytes)) }
    ensures begun { IfSome (R.remaining input.old) (λ bytes.
        Begins (W.contents output.old) (W.contents output.new) (printed (map string_bytes args.now) bytes)) }

    // Whatever fails but a write leaves nothing of a file; of a stream it leaves the first files, each whole.
    ensures unread { AsksOfFile (map string_bytes args.now) → IfErr result (λ stop. IsUnwritten stop ⊎ (output.new ≡ output.old)) }
    ensures whole { AsksOfStream (map string_bytes args.now) → IfErr result (λ stop. IsUnwritten stop
        ⊎ PrintsFirst (item_of (map string_bytes args.now)) 4 (R.remaining input.old) (W.contents output.old) (W.contents output.new)) }

    // Asked about itself, it prints that whatever the input is.
    ensures about { IfSome (asked_about (map string_bytes args.now)) (λ asked.
        (input.new ≡ input.old) × OnOk result (Appends (W.contents output.old) (W.contents output.new) (about asked))) }
{
    if let Some(about) = asked_about(args) {
        print_about(alloc, output, &USAGE, about)?;
        return Ok(Outcome::Done);
    }
    let options = read_options(args);
    match read_ask(options.others) {
        Ok(ask) => {
            let outcome = answer_input(alloc, input, output, options.mode, ask)?;
            Ok(outcome)
        }
        Err(wrong) => Err(Stop::Usage(wrong)),
    }
}
