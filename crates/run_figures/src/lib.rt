//! What `figures` does with its arguments, from its input to its output: it prints a line for each recording of a stream, what the depth stage saves of it in
//! whole numbers, then one line for all of them; of more than 65,536 recordings only that they are refused. Each recording stands after its length in bytes, a
//! little-endian u32; a length past the stream's end takes what is left.
#![tactic(auto)]

ghost use Rattle.std.specs.Prelude.{◌≡◌, ◌≢◌, ◌≤◌, ◌↔◌, ◌⊎◌, None, false, [], length, map, string_bytes, vec_len, IfSome, IfOk, IfErr, OnOk, IsErrAnd};
ghost use Rattle.std.specs.Io.KnownBytes.{Appends};
ghost use Rattle.rules.proofs.All.{All};
ghost use Rattle.rules_figures.specs.Accounted.{most-recordings};
ghost use Rattle.rules_figures.specs.Lines.{all-lines, many-line};
ghost use Rattle.text_programs.specs.Rooms.{file-room};
ghost use Rattle.text_programs.specs.Arguments.{asked_about, read_arguments, reading_of};
ghost use Rattle.text_programs.specs.Failures.{IsUsage, IsUnwritten, IsOfReading, IsOfWriting, Begins};
ghost use Rattle.tally.specs.Counts.{figures-of, Within, screen-most};
ghost use Rattle.run_figures.specs.Printed.{about, figures_read, stream_text, printed};
ghost use Rattle.run_figures.specs.Counting.{NextRead, StreamRead, first-figures};

use std::alloc::{AllocError, Global};
use std::io::{Read, Write};
use tally::counts::Figures;
use text::FileBytes;
use text_figures::{LINE_ROOM, file_figures, many_text, recording_text, total_text};
use text_files::tables::Tables;
use text_files::usual;
use text_programs::about::{asked_about, print_about};
use text_programs::failure::{Failure, Stop};
use text_programs::options::{Reading, read_options};
use text_programs::stream::{read, skip_rest, word};
use text_programs::usage::{SCREEN_OPTIONS, Usage, Wrong, wrong_option};
use text_programs::{file_buffer, read_all, write_text};

/// What it says of itself where it is asked.
pub const USAGE: Usage = Usage {
    program: "figures",
    calls: "usage: figures [--snap] [--width N] [--edition N] < STREAM\noptions, in any order; the last of a repeated one counts:\n",
    options: "",
    screen: SCREEN_OPTIONS,
};

/// As many recordings as are counted.
pub const MOST_RECORDINGS: usize = 65_536;

// The head of a recording in a stream: its length in bytes.
const HEAD: usize = 4;

// The figures of a file's bytes, read as the options ask.
fn read_figures(file: &[u8], reading: Reading, tables: &mut Tables) -> Figures
    ensures figures { figures-of result ≡ figures_read (reading_of reading) file.now }
    ensures small { Within screen-most (figures-of result) }
{
    match reading {
        Reading::Screen(view) => {
            let file = FileBytes {
                edition: view.edition,
                bytes: file,
            };
            file_figures(file, usual(view.mode, view.width), tables)
        }
        Reading::NoWidth(_) | Reading::NoEdition => Figures::one_refused(),
    }
}

// The next recording of a stream, put first in the buffer as far as there is room: how many bytes; none where no whole head is left.
fn next_recording<R: Read>(input: &mut R, buffer: &mut [u8]) -> Result<Option<usize>, Failure>
    ensures few { IfOk result (λ next. IfSome next (λ n. n ≤ length buffer.new)) }
    ensures read { IfOk result (λ next. IfSome (R.remaining input.old) (λ bs. NextRead bs (R.remaining input.new) next buffer.new)) }
    ensures err { IfErr result IsOfReading }
{
    let mut head = [0u8; HEAD];
    if read_all(input, &mut head)? < HEAD {
        return Ok(None);
    }
    let room = buffer.len();
    let size = word(&head, 0) as usize;
    let n = read(input, buffer, size)?;
    skip_rest(input, size, room)?;
    Ok(Some(n))
}

// The figures of a stream's recordings, put first: how many recordings there are; none where there are more than there is room for.
fn count_stream<R: Read>(
    input: &mut R,
    reading: Reading,
    buffer: &mut [u8],
    tables: &mut Tables,
    counted: &mut [Figures],
) -> Result<Option<usize>, Failure>
    requires room { length buffer.old ≡ file-room }
    requires most { length counted.old ≡ most-recordings }
    ensures few { IfOk result (λ all. IfSome all (λ n. n ≤ most-recordings)) }
    ensures small { IfOk result (λ all. IfSome all (λ n. All (Within screen-most) (first-figures n counted.new))) }
    ensures read { IfOk result (λ all. IfSome (R.remaining input.old) (λ stream. StreamRead (reading_of reading) stream all counted.new)) }
    ensures err { IfErr result IsOfReading }
{
    for i in 0..counted.len() {
        let Some(n) = next_recording(input, buffer)? else {
            return Ok(Some(i));
        };
        counted[i] = read_figures(&buffer[..n], reading, tables);
    }
    match next_recording(input, buffer)? {
        Some(_) => Ok(None),
        None => Ok(Some(counted.len())),
    }
}

// A line for each recording, and one for all of them.
fn write_lines<W: Write>(output: &mut W, counted: &[Figures]) -> Result<(), Failure>
    requires few { length counted.now ≤ most-recordings }
    requires small { All (Within screen-most) (map figures-of counted.now) }
    ensures ok { OnOk result (Appends (W.contents output.old) (W.contents output.new) (all-lines (map figures-of counted.now))) }
    ensures begun { Begins (W.contents output.old) (W.contents output.new) (all-lines (map figures-of counted.now)) }
    ensures err { IfErr result IsOfWriting }
{
    let mut line = [0u8; LINE_ROOM];
    let mut total = Figures::nothing();
    for i in 0..counted.len() {
        let n = recording_text(i as u64, counted[i], &mut line);
        write_text(output, &line[..n])?;
        total = total.plus(counted[i]);
    }
    let n = total_text(total, &mut line);
    write_text(output, &line[..n])
}

// What is printed of more recordings.
fn write_many<W: Write>(output: &mut W) -> Result<(), Failure>
    ensures ok { OnOk result (Appends (W.contents output.old) (W.contents output.new) many-line) }
    ensures begun { Begins (W.contents output.old) (W.contents output.new) many-line }
    ensures err { IfErr result IsOfWriting }
{
    let mut line = [0u8; LINE_ROOM];
    let n = many_text(&mut line);
    write_text(output, &line[..n])
}

// Room for the figures of as many recordings as are counted.
fn figures_buffer(alloc: Global) -> Result<Vec<Figures>, AllocError>
    ensures { IfOk result (λ counted. vec_len counted ≡ most-recordings) }
{
    Ok(vec![in alloc; Figures::nothing(); MOST_RECORDINGS]?)
}

// Counts the recordings of a stream, and prints what that comes to, in buffers that are lent. Nothing is written before the stream's end is read, or that there
// are too many.
fn print_counted<R: Read, W: Write>(
    input: &mut R,
    output: &mut W,
    reading: Reading,
    buffer: &mut [u8],
    tables: &mut Tables,
    counted: &mut [Figures],
) -> Result<(), Failure>
    requires room { length buffer.old ≡ file-room }
    requires most { length counted.old ≡ most-recordings }
    ensures ok { OnOk result (IfSome (R.remaining input.old) (λ stream. Appends (W.contents output.old) (W.contents output.new) (stream_text (reading_of reading) stream))) }
    ensures begun { IfSome (R.remaining input.old) (λ stream. Begins (W.contents output.old) (W.contents output.new) (stream_text (reading_of reading) stream)) }
    ensures unread { IfErr result (λ e. IsOfWriting e ⊎ (output.new ≡ output.old)) }
    ensures err { IfErr result (λ e. IsOfReading e ⊎ IsOfWriting e) }
{
    match count_stream(input, reading, buffer, tables, counted)? {
        Some(n) => write_lines(output, &counted[..n]),
        None => write_many(output),
    }
}

// The same, in the program's own buffers.
fn print_stream<R: Read, W: Write>(
    alloc: Global,
    input: &mut R,
    output: &mut W,
    reading: Reading,
) -> Result<(), Failure>
    ensures ok { OnOk result (IfSome (R.remaining input.old) (λ stream. Appends (W.contents output.old) (W.contents output.new) (stream_text (reading_of reading) stream))) }
    ensures begun { IfSome (R.remaining input.old) (λ stream. Begins (W.contents output.old) (W.contents output.new) (stream_text (reading_of reading) stream)) }
    ensures unread { IfErr result (λ e. IsOfWriting e ⊎ (output.new ≡ output.old)) }
{
    let mut tables = Tables::new(alloc)?;
    let mut buffer = file_buffer(alloc)?;
    let mut counted = figures_buffer(alloc)?;
    print_counted(
        input,
        output,
        reading,
        buffer.as_mut_slice(),
        &mut tables,
        counted.as_mut_slice(),
    )
}

/// Prints what the arguments ask for, over any input and output: its usage, its version, or the figures of the recordings of the stream on the input.
pub fn run<'a, R: Read, W: Write>(
    alloc: Global,
    args: &'a [String],
    input: &mut R,
    output: &mut W,
) -> Result<(), Stop<'a>>
    ensures usage { IsErrAnd result IsUsage
        ↔ ((asked_about (map string_bytes args.now) ≡ None) × ((read_arguments false (map string_bytes args.now)).others ≢ [])) }
    ensures untouched { IfErr result (λ stop. IsUsage stop → (input.new ≡ input.old) × (output.new ≡ output.old)) }

    ensures printed { OnOk result (IfSome (R.remaining input.old) (λ stream.
        Appends (W.contents output.old) (W.contents output.new) (printed (map string_bytes args.now) stream))) }
    ensures begun { IfSome (R.remaining input.old) (λ stream.
        Begins (W.contents output.old) (W.contents output.new) (printed (map string_bytes args.now) stream)) }

    // Whatever fails but a write leaves the output as it was.
    ensures unread { IfErr result (λ stop. IsUnwritten stop ⊎ (output.new ≡ output.old)) }

    // Asked about itself, it prints that whatever the input is.
    ensures about { IfSome (asked_about (map string_bytes args.now)) (λ asked.
        (input.new ≡ input.old) × OnOk result (Appends (W.contents output.old) (W.contents output.new) (about asked))) }
{
    if let Some(about) = asked_about(args) {
        print_about(alloc, output, &USAGE, about)?;
        return Ok(());
    }
    let options = read_options(args, false);
    if let Some(word) = options.others.first() {
        let wrong = wrong_option(options.others).unwrap_or(Wrong::TooMany(word.as_str()));
        return Err(Stop::Usage(wrong));
    }
    print_stream(alloc, input, output, options.want.reading)?;
    Ok(())
}
