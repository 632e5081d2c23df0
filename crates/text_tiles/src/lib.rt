//! Programs that answer about a tile: what their arguments ask, and what they print of one file, or of each item of a stream. An item is the file's length in
//! bytes, the row and the tile, each a little-endian u32, then the file; a length past the stream's end takes what is left.
#![tactic(auto)]

ghost use Rattle.std.specs.Prelude.{◌≡◌, ◌≤◌, ◌⊎◌, ℕ, List, length, take, IfSome, IfErr, OnOk};
ghost use Rattle.std.specs.Io.KnownBytes.{Appends};
ghost use Rattle.text_programs.specs.Failures.{IsOfReading, IsOfWriting, Begins};
ghost use Rattle.text_programs.specs.Streams.{PrintsFirst};
ghost use Rattle.text_tiles.specs.declared.arguments.TilePlace.{TilePlace};
ghost use Rattle.text_tiles.specs.Requests.{IsOfFile, IsOfStream};
ghost use Rattle.text_tiles.specs.Printed.{place_in, item_text, reply, ReadsTo};

use crate::arguments::{Request, TilePlace};
use std::io::{Read, Write};
use text_programs::failure::Failure;
use text_programs::stream::{Replies, answer_all, word};
use text_programs::{read_all, write_text};

pub mod arguments;

// The head of an item: the file's length in bytes, the row, the tile.
const HEAD: usize = 12;

const ROW: usize = 4;

const TILE: usize = 8;

/// What answers about a tile of a file.
pub trait Answers {
    // What it prints of a file.
    ghost text: { Self → TilePlace → List ℕ → List ℕ };

    // What it prints before the text of item i of a stream.
    ghost line: { ℕ → List ℕ };

    ghost ready: { Self → Type 0 };

    // Bytes of the buffer that a file is read to, and of the one that a text is put in.
    ghost file_room: { ℕ };

    ghost text_room: { ℕ };

    /// The line before the text of item i, put first; how long it is.
    fn put_line(&self, i: u64, out: &mut [u8]) -> usize
        requires { text_room ≤ length out.old }
        ensures value { result ≡ length (line i) }
        ensures out_after { take result out.new ≡ line i };

    /// The text of a file, put first; how long it is.
    fn put_text(&mut self, file: &[u8], place: TilePlace, out: &mut [u8]) -> usize
        requires ready { ready self.old }
        requires room { text_room ≤ length out.old }
        ensures ready { ready self.new }
        ensures same { (p : TilePlace) (fs : List ℕ) → text self.new p fs ≡ text self.old p fs }
        ensures value { result ≡ length (text self.old place file.now) }
        ensures out_after { take result out.new ≡ text self.old place file.now };
}

// What answers, and the bytes that its texts are put in.
#[derive(Drop)]
struct Desk<'a, A> {
    answers: A,
    text: &'a mut [u8],
}

// Where the item is asked about whose head this is.
fn place_in(head: &[u8]) -> TilePlace
    ensures { result ≡ place_in head.now }
{
    TilePlace {
        row: word(head, ROW),
        tile: word(head, TILE),
    }
}

impl<A: Answers + Drop> Desk<'_, A> {
    fn print_line<W: Write>(&mut self, i: u64, output: &mut W) -> Result<(), Failure>
        requires { A.text_room ≤ length self.old.text.now }
        ensures room { A.text_room ≤ length self.new.text.now }
        ensures same { self.new.answers ≡ self.old.answers }
        ensures ok { OnOk result (Appends (W.contents output.old) (W.contents output.new) (A.line i)) }
        ensures begun { Begins (W.contents output.old) (W.contents output.new) (A.line i) }
        ensures err { IfErr result IsOfWriting }
    {
        let n = self.answers.put_line(i, self.text);
        write_text(output, &self.text[..n])
    }

    fn print_text<W: Write>(
        &mut self,
        file: &[u8],
        place: TilePlace,
        output: &mut W,
    ) -> Result<(), Failure>
        requires ready { A.ready self.old.answers }
        requires room { A.text_room ≤ length self.old.text.now }
        ensures ready { A.ready self.new.answers }
        ensures room { A.text_room ≤ length self.new.text.now }
        ensures same { (p : TilePlace) (fs : List ℕ) → A.text self.new.answers p fs ≡ A.text self.old.answers p fs }
        ensures ok { OnOk result (Appends (W.contents output.old) (W.contents output.new) (A.text self.old.answers place file.now)) }
        ensures begun { Begins (W.contents output.old) (W.contents output.new) (A.text self.old.answers place file.now) }
        ensures err { IfErr result IsOfWriting }
    {
        let n = self.answers.put_text(file, place, self.text);
        write_text(output, &self.text[..n])
    }
}

impl<A: Answers + Drop> Replies for Desk<'_, A> {
    ghost reply = { λ desk i x. item_text A.line (A.text desk.answers) i x };

    ghost ready = { λ desk. A.ready desk.answers × (A.text_room ≤ length desk.text.now) × ReadsTo A.file_room (A.text desk.answers) };

    ghost room = { A.file_room };

    fn answer<W: Write>(
        &mut self,
        i: u64,
        head: &[u8],
        file: &[u8],
        output: &mut W,
    ) -> Result<(), Failure> {
        self.print_line(i, output)?;
        self.print_text(file, place_in(head), output)
    }
}

// The file on the input. Nothing is written before it is read; where writing fails, a beginning of the text is written.
fn answer_file<R: Read, W: Write, A: Answers + Drop>(
    input: &mut R,
    output: &mut W,
    place: TilePlace,
    buffer: &mut [u8],
    desk: &mut Desk<'_, A>,
) -> Result<(), Failure>
    requires ready { A.ready desk.old.answers }
    requires text { A.text_room ≤ length desk.old.text.now }
    requires buffer { length buffer.old ≡ A.file_room }
    requires cut { ReadsTo A.file_room (A.text desk.old.answers) }
    ensures ok { OnOk result (IfSome (R.remaining input.old) (λ file.
        Appends (W.contents output.old) (W.contents output.new) (A.text desk.old.answers place file))) }
    ensures begun { IfSome (R.remaining input.old) (λ file.
        Begins (W.contents output.old) (W.contents output.new) (A.text desk.old.answers place file)) }
    ensures unread { IfErr result (λ e. IsOfWriting e ⊎ (output.new ≡ output.old)) }
    ensures err { IfErr result (λ e. IsOfReading e ⊎ IsOfWriting e) }
{
    let n = read_all(input, buffer)?;
    desk.print_text(&buffer[..n], place, output)
}

/// Answers what is asked of the input, a file or a stream. `buffer`: what a file is read to, whose text does not depend on what it is too short for; `text`:
/// what a text is put in.
pub fn answer_request<R: Read, W: Write, A: Answers + Drop>(
    input: &mut R,
    output: &mut W,
    request: Request,
    buffer: &mut [u8],
    text: &mut [u8],
    answers: A,
) -> Result<(), Failure>
    requires ready { A.ready answers }
    requires text { A.text_room ≤ length text.old }
    requires buffer { length buffer.old ≡ A.file_room }
    requires cut { ReadsTo A.file_room (A.text answers) }
    ensures ok { OnOk result (IfSome (R.remaining input.old) (λ bytes.
        Appends (W.contents output.old) (W.contents output.new) (reply A.line (A.text answers) request bytes))) }
    ensures begun { IfSome (R.remaining input.old) (λ bytes.
        Begins (W.contents output.old) (W.contents output.new) (reply A.line (A.text answers) request bytes)) }
    ensures unread { IsOfFile request → IfErr result (λ e. IsOfWriting e ⊎ (output.new ≡ output.old)) }
    ensures whole { IsOfStream request → IfErr result (λ e. IsOfWriting e
        ⊎ PrintsFirst (item_text A.line (A.text answers)) 12 (R.remaining input.old) (W.contents output.old) (W.contents output.new)) }
    ensures err { IfErr result (λ e. IsOfReading e ⊎ IsOfWriting e) }
{
    let mut desk = Desk { answers, text };
    match request {
        Request::Stream => {
            let mut head = [0u8; HEAD];
            answer_all(input, output, &mut head, buffer, &mut desk)
        }
        Request::File(place) => answer_file(input, output, place, buffer, &mut desk),
    }
}
