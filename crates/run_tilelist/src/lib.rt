//! What `tilelist` does with its arguments, from its input to its output: it lists what a tile of a recording receives, or of each recording of a stream.
#![tactic(auto)]

ghost use Rattle.std.specs.Prelude.{◌≡◌, ◌≤◌, ◌↔◌, ◌⊎◌, false, length, map, string_bytes, take, None, IfSome, IfErr, OnOk, IsErrAnd};
ghost use Rattle.std.specs.Io.KnownBytes.{Appends};
ghost use Rattle.text_programs.specs.Failures.{IsOfWriting, IsUsage, IsUnwritten, Begins};
ghost use Rattle.text_programs.specs.Arguments.{asked_about, read_arguments, wanted_of};
ghost use Rattle.text_programs.specs.Streams.{PrintsFirst};
ghost use Rattle.text_tiles.specs.Requests.{request_of, IsOfFile, IsOfStream};
ghost use Rattle.text_list.specs.Texts.{text-room, Ready};
ghost use Rattle.run_tilelist.specs.Printed.{about, answer, item_answer, reply, printed, item_of, AsksOfFile, AsksOfStream};

use sizes::answers::Refusal;
use std::alloc::Global;
use std::io::{Read, Write};
use text::FileBytes;
use text_list::{
    Lists, line_text, list_buffer, list_text, no_width_text, refused_text, text_buffer,
};
use text_long::{long_buffer, word_buffer};
use text_programs::about::{asked_about, print_about};
use text_programs::failure::{Failure, Stop};
use text_programs::options::{Reading, Want, read_options};
use text_programs::usage::{SCREEN_OPTIONS, Usage};
use text_tiles::arguments::{Request, TilePlace, read_request, wrong_request};
use text_tiles::{Answers, answer_request};

/// What it says of itself where it is asked.
pub const USAGE: Usage = Usage {
    program: "tilelist",
    calls: "usage: tilelist [--snap] [--width N] [--edition N] ROW TILE < FILE\n       tilelist [--snap] [--width N] [--edition N] --stream < STREAM\n\
        ROW and TILE count from 0 on the screen\n\
        options, before the other arguments, in any order; the last of a repeated one counts:\n",
    options: "",
    screen: SCREEN_OPTIONS,
};

// What is wanted, and what a file is listed in.
#[derive(Drop)]
struct Listing<'a> {
    want: Want,
    lists: Lists<'a>,
}

// What is wanted, put first; how long it is.
fn wanted_text(
    file: &[u8],
    want: Want,
    place: TilePlace,
    lists: &mut Lists<'_>,
    out: &mut [u8],
) -> usize
    requires ready { Ready lists.old }
    requires room { text-room ≤ length out.old }
    ensures ready { Ready lists.new }
    ensures value { result ≡ length (answer (wanted_of want) place file.now) }
    ensures out_after { take result out.new ≡ answer (wanted_of want) place file.now }
{
    match want.reading {
        Reading::Screen(view) => {
            let file = FileBytes {
                edition: view.edition,
                bytes: file,
            };
            list_text(
                file, view.mode, view.width, place.row, place.tile, lists, out,
            )
        }
        Reading::NoWidth(edition) => {
            let file = FileBytes {
                edition,
                bytes: file,
            };
            no_width_text(file, lists.words, out)
        }
        Reading::NoEdition => refused_text(Refusal::BadForm, out),
    }
}

impl Answers for Listing<'_> {
    ghost use Rattle.rules_reason.specs.TileList.{list-line};
    ghost use Rattle.text_long.specs.Long.{long-room};

    ghost text = { λ listing p fs. answer (wanted_of listing.want) p fs };

    ghost line = { λ i. list-line i };

    ghost ready = { λ listing. Ready listing.lists };

    ghost file_room = { long-room };

    ghost text_room = { text-room };

    fn put_line(&self, i: u64, out: &mut [u8]) -> usize {
        line_text(i, out)
    }

    fn put_text(&mut self, file: &[u8], place: TilePlace, out: &mut [u8]) -> usize {
        wanted_text(file, self.want, place, &mut self.lists, out)
    }
}

// What is asked of the input, answered in the program's own buffers, made once.
fn answer_input<R: Read, W: Write>(
    alloc: Global,
    input: &mut R,
    output: &mut W,
    want: Want,
    request: Request,
) -> Result<(), Failure>
    ensures ok { OnOk result (IfSome (R.remaining input.old) (λ bytes.
        Appends (W.contents output.old) (W.contents output.new) (reply (wanted_of want) request bytes))) }
    ensures begun { IfSome (R.remaining input.old) (λ bytes.
        Begins (W.contents output.old) (W.contents output.new) (reply (wanted_of want) request bytes)) }
    ensures unread { IsOfFile request → IfErr result (λ e. IsOfWriting e ⊎ (output.new ≡ output.old)) }
    ensures whole { IsOfStream request → IfErr result (λ e. IsOfWriting e
        ⊎ PrintsFirst (item_answer (wanted_of want)) 12 (R.remaining input.old) (W.contents output.old) (W.contents output.new)) }
{
    let mut words = word_buffer(alloc)?;
    let mut list = list_buffer(alloc)?;
    let mut text = text_buffer(alloc)?;
    let mut buffer = long_buffer(alloc)?;
    let lists = Lists {
        words: words.as_mut_slice(),
        list: list.as_mut_slice(),
    };
    let listing = Listing { want, lists };
    answer_request(
        input,
        output,
        request,
        buffer.as_mut_slice(),
        text.as_mut_slice(),
        listing,
    )
}

/// Prints what the arguments ask for, over any input and output: its usage, its version, the list of a tile of the file on the input, or those of its stream.
pub fn run<'a, R: Read, W: Write>(
    alloc: Global,
    args: &'a [String],
    input: &mut R,
    output: &mut W,
) -> Result<(), Stop<'a>>
    ensures usage { IsErrAnd result IsUsage
        ↔ ((asked_about (map string_bytes args.now) ≡ None) × (request_of (read_arguments false (map string_bytes args.now)).others ≡ None)) }
    ensures untouched { IfErr result (λ stop. IsUsage stop → (input.new ≡ input.old) × (output.new ≡ output.old)) }

    ensures printed { OnOk result (IfSome (R.remaining input.old) (λ bytes.
        Appends (W.contents output.old) (W.contents output.new) (printed (map string_bytes args.now) bytes))) }
    ensures begun { IfSome (R.remaining input.old) (λ bytes.
        Begins (W.contents output.old) (W.contents output.new) (printed (map string_bytes args.now) bytes)) }

    // Whatever fails but a write leaves nothing of a file's list; of a stream it leaves the first lists, each whole.
    ensures unread { AsksOfFile (map string_bytes args.now) → IfErr result (λ stop. IsUnwritten stop ⊎ (output.new ≡ output.old)) }
    ensures whole { AsksOfStream (map string_bytes args.now) → IfErr result (λ stop. IsUnwritten stop
        ⊎ PrintsFirst (item_of (map string_bytes args.now)) 12 (R.remaining input.old) (W.contents output.old) (W.contents output.new)) }

    // Asked about itself, it prints that whatever the input is.
    ensures about { IfSome (asked_about (map string_bytes args.now)) (λ asked.
        (input.new ≡ input.old) × OnOk result (Appends (W.contents output.old) (W.contents output.new) (about asked))) }
{
    if let Some(about) = asked_about(args) {
        print_about(alloc, output, &USAGE, about)?;
        return Ok(());
    }
    let options = read_options(args, false);
    match read_request(options.others) {
        Ok(request) => {
            answer_input(alloc, input, output, options.want, request)?;
            Ok(())
        }
        Err(wrong) => Err(Stop::Usage(wrong_request(options.others, wrong))),
    }
}
