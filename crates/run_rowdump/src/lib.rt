//! What `rowdump` does with its arguments, from its input to its output: it prints what `rowlist` prints of each recording of a stream, and the attributes and
//! painted pieces of those that are not refused, with panels where they are asked for. Each recording stands after its length in bytes, a little-endian u32;
//! a length past the stream's end takes what is left.
#![tactic(auto)]

ghost use Rattle.std.specs.Prelude.{◌≡◌, ◌≢◌, ◌↔◌, ◌⊎◌, true, [], length, map, string_bytes, IfSome, IfErr, OnOk, IsErrAnd};
ghost use Rattle.std.specs.Io.KnownBytes.{Appends};
ghost use Rattle.text_files.specs.Programs.{first};
ghost use Rattle.text_programs.specs.Rooms.{file-room};
ghost use Rattle.text_programs.specs.Arguments.{asked_about, read_arguments, wanted_of};
ghost use Rattle.text_programs.specs.Streams.{stream_printed, PrintsFirst};
ghost use Rattle.text_programs.specs.Failures.{IsUsage, IsUnwritten, IsOfWriting, Begins};
ghost use Rattle.text_dump.specs.Dumped.{Ready};
ghost use Rattle.run_rowdump.specs.Printed.{about, recording_printed, item_printed, printed, item_of};

use std::alloc::Global;
use std::io::{Read, Write};
use text::FileBytes;
use text_dump::{Desk, dump_buffer, no_edition_dump, no_width_dump, piece_buffer, rowdump_text};
use text_files::tables::Tables;
use text_files::usual;
use text_programs::about::{asked_about, print_about};
use text_programs::failure::{Failure, Stop};
use text_programs::options::{Reading, Want, read_options};
use text_programs::stream::{Replies, answer_all};
use text_programs::usage::{SCREEN_OPTIONS, Usage, Wrong, wrong_option};
use text_programs::{file_buffer, write_text};

/// What it says of itself where it is asked.
pub const USAGE: Usage = Usage {
    program: "rowdump",
    calls: "usage: rowdump [--snap] [--width N] [--edition N] [--panels] < STREAM\noptions, in any order; the last of a repeated one counts:\n",
    options: "  --panels     end each line that has a panel with it\n",
    screen: SCREEN_OPTIONS,
};

// The head of a recording in a stream: its length in bytes.
const HEAD: usize = 4;

// What each recording is printed by: what is wanted, and what its text is made in.
#[derive(Drop)]
struct Dump<'a> {
    want: Want,
    desk: Desk<'a>,
}

// What is wanted, put first; how long it is.
fn wanted_text(i: u64, file: &[u8], want: Want, desk: &mut Desk<'_>) -> usize
    requires { Ready desk.old }
    ensures ready { Ready desk.new }
    ensures value { result ≡ length (recording_printed (wanted_of want) i file.now) }
    ensures text { desk.new.text.now ≡ first (recording_printed (wanted_of want) i file.now) desk.old.text.now }
{
    match want.reading {
        Reading::Screen(view) => {
            let file = FileBytes {
                edition: view.edition,
                bytes: file,
            };
            rowdump_text(i, file, usual(view.mode, view.width), want.panels, desk)
        }
        Reading::NoWidth(edition) => {
            let file = FileBytes {
                edition,
                bytes: file,
            };
            no_width_dump(i, file, desk.text)
        }
        Reading::NoEdition => no_edition_dump(i, desk.text),
    }
}

impl Replies for Dump<'_> {
    ghost reply = { λ dump i x. item_printed (wanted_of dump.want) i x };

    ghost ready = { λ dump. Ready dump.desk };

    ghost room = { file-room };

    fn answer<W: Write>(
        &mut self,
        i: u64,
        _head: &[u8],
        file: &[u8],
        output: &mut W,
    ) -> Result<(), Failure> {
        let n = wanted_text(i, file, self.want, &mut self.desk);
        write_text(output, &self.desk.text[..n])
    }
}

// Each recording of a stream, in tables and with room for the longest file, row and text, made once.
#[tactic(auto, using(crate::proofs::Printing::none_printed))]
fn print_stream<R: Read, W: Write>(
    alloc: Global,
    input: &mut R,
    output: &mut W,
    want: Want,
) -> Result<(), Failure>
    ensures ok { OnOk result (IfSome (R.remaining input.old) (λ stream.
        Appends (W.contents output.old) (W.contents output.new) (stream_printed (item_printed (wanted_of want)) 4 stream))) }
    ensures begun { IfSome (R.remaining input.old) (λ stream.
        Begins (W.contents output.old) (W.contents output.new) (stream_printed (item_printed (wanted_of want)) 4 stream)) }
    ensures whole { IfErr result (λ e. IsOfWriting e
        ⊎ PrintsFirst (item_printed (wanted_of want)) 4 (R.remaining input.old) (W.contents output.old) (W.contents output.new)) }
{
    let mut tables = Tables::new(alloc)?;
    let mut pieces = piece_buffer(alloc)?;
    let mut text = dump_buffer(alloc)?;
    let mut buffer = file_buffer(alloc)?;
    let desk = Desk {
        tables: &mut tables,
        list: pieces.as_mut_slice(),
        text: text.as_mut_slice(),
    };
    let mut dump = Dump { want, desk };
    let mut head = [0u8; HEAD];
    answer_all(input, output, &mut head, buffer.as_mut_slice(), &mut dump)
}

/// Prints what the arguments ask for, over any input and output: its usage, its version, or the recordings of the stream on the input.
#[tactic(auto, using(crate::proofs::Printing::none_printed))]
pub fn run<'a, R: Read, W: Write>(
    alloc: Global,
    args: &'a [String],
    input: &mut R,
    output: &mut W,
) -> Result<(), Stop<'a>>
    ensures usage { IsErrAnd result IsUsage
        ↔ ((asked_about (map string_bytes args.now) ≡ None) × ((read_arguments true (map string_bytes args.now)).others ≢ [])) }
    ensures untouched { IfErr result (λ stop. IsUsage stop → (input.new ≡ input.old) × (output.new ≡ output.old)) }

    ensures printed { OnOk result (IfSome (R.remaining input.old) (λ stream.
        Appends (W.contents output.old) (W.contents output.new) (printed (map string_bytes args.now) stream))) }
    ensures begun { IfSome (R.remaining input.old) (λ stream.
        Begins (W.contents output.old) (W.contents output.new) (printed (map string_bytes args.now) stream)) }

    // Whatever fails but a write leaves the first recordings printed, each whole.
    ensures whole { IfErr result (λ stop. IsUnwritten stop
        ⊎ PrintsFirst (item_of (map string_bytes args.now)) 4 (R.remaining input.old) (W.contents output.old) (W.contents output.new)) }

    // Asked about itself, it prints that whatever the input is.
    ensures about { IfSome (asked_about (map string_bytes args.now)) (λ asked.
        (input.new ≡ input.old) × OnOk result (Appends (W.contents output.old) (W.contents output.new) (about asked))) }
{
    if let Some(about) = asked_about(args) {
        print_about(alloc, output, &USAGE, about)?;
        return Ok(());
    }
    let options = read_options(args, true);
    if let Some(word) = options.others.first() {
        let wrong = wrong_option(options.others).unwrap_or(Wrong::TooMany(word.as_str()));
        return Err(Stop::Usage(wrong));
    }
    print_stream(alloc, input, output, options.want)?;
    Ok(())
}
