//! What `rowlist` does with its arguments, from its input to its output: it prints the rows of a recording, or the number of its refusal.
#![tactic(auto)]

ghost use Rattle.std.specs.Prelude.{◌≡◌, ◌≢◌, ◌≤◌, ◌↔◌, ◌⊎◌, false, [], length, map, string_bytes, IfSome, IfErr, OnOk, IsErrAnd};
ghost use Rattle.std.specs.Io.KnownBytes.{Appends};
ghost use Rattle.text_files.specs.Programs.{first};
ghost use Rattle.text_programs.specs.Arguments.{asked_about, read_arguments, wanted_of};
ghost use Rattle.text_programs.specs.Rooms.{file-room};
ghost use Rattle.text_files.specs.Rooms.{text-room};
ghost use Rattle.text_programs.specs.Failures.{IsOfReading, IsOfWriting, IsUsage, IsUnwritten, Begins};
ghost use Rattle.run_rowlist.specs.Printed.{about, listed, printed};

use std::alloc::Global;
use std::io::{Read, Write};
use text::FileBytes;
use text_files::tables::{Tables, text_buffer};
use text_files::{no_edition_text, no_width_text, rowlist_text, usual};
use text_programs::about::{asked_about, print_about};
use text_programs::failure::{Failure, Stop};
use text_programs::options::{Reading, Want, read_options};
use text_programs::usage::{SCREEN_OPTIONS, Usage, Wrong, wrong_option};
use text_programs::{file_buffer, read_all, write_text};

/// What it says of itself where it is asked.
pub const USAGE: Usage = Usage {
    program: "rowlist",
    calls: "usage: rowlist [--snap] [--width N] [--edition N] < FILE\noptions, in any order; the last of a repeated one counts:\n",
    options: "",
    screen: SCREEN_OPTIONS,
};

// What is wanted, put first; how long it is.
fn wanted_text(file: &[u8], want: Want, tables: &mut Tables, out: &mut [u8]) -> usize
    requires { text-room ≤ length out.old }
    ensures value { result ≡ length (listed (wanted_of want) file.now) }
    ensures out_after { out.new ≡ first (listed (wanted_of want) file.now) out.old }
{
    match want.reading {
        Reading::Screen(view) => {
            let file = FileBytes {
                edition: view.edition,
                bytes: file,
            };
            rowlist_text(file, usual(view.mode, view.width), tables, out)
        }
        Reading::NoWidth(edition) => {
            let file = FileBytes {
                edition,
                bytes: file,
            };
            no_width_text(file, out)
        }
        Reading::NoEdition => no_edition_text(out),
    }
}

// Lists the recording on the input, in tables and buffers that are lent. Nothing is written before the input is read; where writing fails, a beginning
// of the list is written.
fn list_in<R: Read, W: Write>(
    input: &mut R,
    output: &mut W,
    want: Want,
    tables: &mut Tables,
    buffer: &mut [u8],
    text: &mut [u8],
) -> Result<(), Failure>
    requires { (length buffer.old ≡ file-room) × (text-room ≤ length text.old) }
    ensures ok { OnOk result (IfSome (R.remaining input.old) (λ file. Appends (W.contents output.old) (W.contents output.new) (listed (wanted_of want) file))) }
    ensures begun { IfSome (R.remaining input.old) (λ file. Begins (W.contents output.old) (W.contents output.new) (listed (wanted_of want) file)) }
    ensures unread { IfErr result (λ e. IsOfWriting e ⊎ (output.new ≡ output.old)) }
    ensures err { IfErr result (λ e. IsOfReading e ⊎ IsOfWriting e) }
{
    let n = read_all(input, buffer)?;
    let k = wanted_text(&buffer[..n], want, tables, text);
    write_text(output, &text[..k])
}

// The same, in the programs' own tables and buffers.
fn list_input<R: Read, W: Write>(
    alloc: Global,
    input: &mut R,
    output: &mut W,
    want: Want,
) -> Result<(), Failure>
    ensures ok { OnOk result (IfSome (R.remaining input.old) (λ file. Appends (W.contents output.old) (W.contents output.new) (listed (wanted_of want) file))) }
    ensures begun { IfSome (R.remaining input.old) (λ file. Begins (W.contents output.old) (W.contents output.new) (listed (wanted_of want) file)) }
    ensures unread { IfErr result (λ e. IsOfWriting e ⊎ (output.new ≡ output.old)) }
{
    let mut tables = Tables::new(alloc)?;
    let mut buffer = file_buffer(alloc)?;
    let mut text = text_buffer(alloc)?;
    list_in(
        input,
        output,
        want,
        &mut tables,
        buffer.as_mut_slice(),
        text.as_mut_slice(),
    )
}

/// Prints what the arguments ask for, over any input and output: its usage, its version, or the list of the recording on the input.
pub fn run<'a, R: Read, W: Write>(
    alloc: Global,
    args: &'a [String],
    input: &mut R,
    output: &mut W,
) -> Result<(), Stop<'a>>
    ensures usage { IsErrAnd result IsUsage
        ↔ ((asked_about (map string_bytes args.now) ≡ None) × ((read_arguments false (map string_bytes args.now)).others ≢ [])) }
    ensures untouched { IfErr result (λ stop. IsUsage stop → (input.new ≡ input.old) × (output.new ≡ output.old)) }

    ensures printed { OnOk result (IfSome (R.remaining input.old) (λ file.
        Appends (W.contents output.old) (W.contents output.new) (printed (map string_bytes args.now) file))) }
    ensures begun { IfSome (R.remaining input.old) (λ file.
        Begins (W.contents output.old) (W.contents output.new) (printed (map string_bytes args.now) file)) }
    ensures unread { IfErr result (λ stop. IsUnwritten stop ⊎ (output.new ≡ output.old)) }

    // Asked about itself, it prints that whatever the input is.
    ensures about { IfSome (asked_about (map string_bytes args.now)) (λ asked.
        (input.new ≡ input.old) × OnOk result (Appends (W.contents output.old) (W.contents output.new) (about asked))) }
{
    if let Some(about) = asked_about(args) {
        print_about(alloc, output, &USAGE, about)?;
        return Ok(());
    }
    let options = read_options(args, false);
    if let Some(word) = options.others.first() {
        let wrong = wrong_option(options.others).unwrap_or(Wrong::TooMany(word.as_str()));
        return Err(Stop::Usage(wrong));
    }
    list_input(alloc, input, output, options.want)?;
    Ok(())
}
