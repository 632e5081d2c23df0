//! Streams: files one after the other, each after a head of little-endian u32s, its length in bytes first. They are answered in their order, whatever it is
//! that answers them.
ghost use Rattle.std.specs.Prelude.{◌≡◌, ◌-◌, ◌≤◌, ◌<◌, ◌⊎◌, ℕ, List, ⊤, length, take, min, Ok, IfSome, IfOk, IfErr, IsOk, OnOk, MatchBool};
ghost use Rattle.std.specs.Io.KnownBytes.{Appends};
ghost use Rattle.text_programs.specs.Streams.{Takes, Skips, word_at, Item, Answered, short, front_printed, stream_printed, PrintsFirst};
ghost use Rattle.text_programs.specs.Failures.{IsOfReading, IsOfWriting, Begins, Loses};

use crate::failure::Failure;
use crate::read_all;
use std::io::{Read, Write};

/// Reads up to k bytes to the start of the buffer; how many were read.
pub fn read<R: Read>(input: &mut R, buf: &mut [u8], k: usize) -> Result<usize, Failure>
    ensures count { IfOk result (λ n. n ≤ length buf.new) }
    ensures at_most { IfOk result (λ n. n ≤ k) }
    ensures bytes { IfOk result (λ n. Takes (min k (length buf.old)) (R.remaining input.old) (R.remaining input.new) (take n buf.new)) }
    ensures gone { Loses (min k (length buf.old)) (R.remaining input.old) (R.remaining input.new) }
    ensures none_asked { k ≡ 0 → result ≡ Ok 0 }
    ensures err { IfErr result IsOfReading }
{
    if k <= buf.len() {
        return read_all(input, &mut buf[..k]);
    }
    read_all(input, buf)
}

/// The u32 at a place of a head, 0 if there are not four bytes.
pub fn word(head: &[u8], at: usize) -> u32
    ensures { result ≡ word_at head.now at }
{
    if head.len() < 4 {
        return 0;
    }
    if head.len() - 4 < at {
        return 0;
    }
    u32::from_le_bytes([head[at], head[at + 1], head[at + 2], head[at + 3]])
}

// Reads on over n bytes, or to the end.
fn skip<R: Read>(input: &mut R, n: usize) -> Result<(), Failure>
    ensures ok { OnOk result (Skips n (R.remaining input.old) (R.remaining input.new)) }
    ensures gone { Loses n (R.remaining input.old) (R.remaining input.new) }
    ensures none_asked { n ≡ 0 → IsOk result }
    ensures err { IfErr result IsOfReading }
{
    let mut buf = [0u8; 4096];
    let mut left = n;
    while 0 < left {
        let got = read(input, &mut buf, left)?;
        if got == 0 {
            return Ok(());
        }
        left -= got;
    }
    Ok(())
}

/// A file of so many bytes was read into a buffer of `room` bytes. One that is longer has filled it, which is too long, and the rest is passed over.
pub fn skip_rest<R: Read>(input: &mut R, size: usize, room: usize) -> Result<(), Failure>
    ensures ok { OnOk result (Skips (size - room) (R.remaining input.old) (R.remaining input.new)) }
    ensures gone { Loses (size - room) (R.remaining input.old) (R.remaining input.new) }
    ensures none_asked { size ≤ room → IsOk result }
    ensures err { IfErr result IsOfReading }
{
    skip(input, size.saturating_sub(room))
}

/// What answers the files of a stream.
pub trait Replies {
    // What it writes of file i.
    ghost reply: { Self → ℕ → Item → List ℕ };

    ghost ready: { Self → Type 0 } = { λ _. ⊤ };

    // Bytes of the buffer that a file is read to.
    ghost room: { ℕ };

    // A file is lent as far as that buffer takes it; what is written of it does not depend on the rest.
    fn answer<W: Write>(
        &mut self,
        i: u64,
        head: &[u8],
        file: &[u8],
        output: &mut W,
    ) -> Result<(), Failure>
        requires { ready self.old }
        ensures ready { ready self.new }
        ensures same { (j : ℕ) (x : Item) → reply self.new j x ≡ reply self.old j x }
        ensures cut { (j : ℕ) (x : Item) → reply self.old j (short room x) ≡ reply self.old j x }
        ensures ok { OnOk result (Appends (W.contents output.old) (W.contents output.new) (reply self.old i (record { head = head.now; file = file.now }))) }
        ensures begun { Begins (W.contents output.old) (W.contents output.new) (reply self.old i (record { head = head.now; file = file.now })) }
        ensures err { IfErr result IsOfWriting };
}

// Whether there was another file, i: it is answered. All of it is read, or passed over, before a byte of its answer is written.
fn answer_next<R: Read, W: Write, D: Replies>(
    input: &mut R,
    output: &mut W,
    i: u64,
    head: &mut [u8],
    buffer: &mut [u8],
    desk: &mut D,
) -> Result<bool, Failure>
    requires { D.ready desk.old × (length buffer.old ≡ D.room) }
    ensures ready { D.ready desk.new }
    ensures same { (j : ℕ) (x : Item) → D.reply desk.new j x ≡ D.reply desk.old j x }
    ensures ok { IfOk result (λ more. IfSome (R.remaining input.old) (λ bs. MatchBool more
        (Answered (D.reply desk.old) (length head.old) i bs (R.remaining input.new) (W.contents output.old) (W.contents output.new))
        ((length bs < length head.old) × (output.new ≡ output.old)))) }
    ensures begun { IfErr result (λ _. IfSome (R.remaining input.old) (λ bs.
        Begins (W.contents output.old) (W.contents output.new) (front_printed (D.reply desk.old) (length head.old) i bs))) }
    ensures unread { IfErr result (λ e. IsOfWriting e ⊎ (output.new ≡ output.old)) }
    ensures err { IfErr result (λ e. IsOfReading e ⊎ IsOfWriting e) }
{
    let room = buffer.len();
    if read_all(input, head)? < head.len() {
        return Ok(false);
    }
    let size = word(head, 0) as usize;
    let n = read(input, buffer, size)?;
    skip_rest(input, size, room)?;
    desk.answer(i, head, &buffer[..n], output)?;
    Ok(true)
}

/// Answers each file of a stream, from number 0 on. The head is as long as each file's is; the buffer has the room that a file is read to. Nothing says that a stream ends:
/// the files are counted up to a number that no run reaches.
pub fn answer_all<R: Read, W: Write, D: Replies>(
    input: &mut R,
    output: &mut W,
    head: &mut [u8],
    buffer: &mut [u8],
    desk: &mut D,
) -> Result<(), Failure>
    requires { D.ready desk.old × (length buffer.old ≡ D.room) }
    ensures ok { OnOk result (IfSome (R.remaining input.old) (λ stream.
        Appends (W.contents output.old) (W.contents output.new) (stream_printed (D.reply desk.old) (length head.old) stream))) }
    ensures begun { IfSome (R.remaining input.old) (λ stream.
        Begins (W.contents output.old) (W.contents output.new) (stream_printed (D.reply desk.old) (length head.old) stream)) }
    ensures whole { IfErr result (λ e. IsOfWriting e
        ⊎ PrintsFirst (D.reply desk.old) (length head.old) (R.remaining input.old) (W.contents output.old) (W.contents output.new)) }
    ensures err { IfErr result (λ e. IsOfReading e ⊎ IsOfWriting e) }
{
    for i in 0..u64::MAX {
        if !answer_next(input, output, i, head, buffer, desk)? {
            return Ok(());
        }
    }
    Ok(())
}
