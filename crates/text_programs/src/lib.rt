//! What the programs have in common beside the texts that they print: their options and usages, reading to the end, streams, how they fail. Parts: where a
//! function asks something, the programs have seen to it.
#![tactic(auto)]

ghost use Rattle.std.specs.Prelude.{◌≡◌, ◌≢◌, ◌≤◌, true, false, length, take, replicate, Ok, IfOk, IfErr, IsOk, OnOk};
ghost use Rattle.std.specs.IoError.{error_kind};
ghost use Rattle.std.specs.Io.KnownBytes.{Appends, ReadConsumes, WriteAppends};
ghost use Rattle.text_programs.specs.Rooms.{file-room};
ghost use Rattle.text_programs.specs.Streams.{Takes};
ghost use Rattle.text_programs.specs.Failures.{IsOfReading, IsOfWriting, Begins, Loses};

use crate::failure::Failure;
use sizes::FILE_BYTES;
use std::alloc::{AllocError, Global};
use std::io;
use std::io::{ErrorKind, Read, Write};

pub mod about;
pub mod failure;
pub mod options;
pub mod stream;
pub mod usage;

/// Bytes of the buffer that a file is read to: the longest file, and one byte more, by which a longer one is known.
pub const FILE_ROOM: usize = FILE_BYTES + 1;

/// A buffer of that room.
pub fn file_buffer(alloc: Global) -> Result<Vec<u8>, AllocError>
    ensures { IfOk result (λ buffer. buffer.items ≡ replicate file-room 0) }
{
    Ok(vec![in alloc; 0; FILE_ROOM]?)
}

// Whether a signal came between: the call is made again.
fn is_interrupted(error: &io::Error) -> bool
    ensures is { result ≡ true → error_kind error.now ≡ ErrorKind.Interrupted }
    ensures is_not { result ≡ false → error_kind error.now ≢ ErrorKind.Interrupted }
{
    error.kind() == ErrorKind::Interrupted
}

// Reads once, tried again where a signal came between. Nothing says that signals end: tries are counted up to a number that no run reaches.
fn read_some<R: Read>(input: &mut R, buf: &mut [u8]) -> Result<usize, Failure>
    ensures count { IfOk result (λ n. n ≤ length buf.new) }
    ensures bytes { ReadConsumes (R.remaining input.old) (R.remaining input.new) result buf.new }
    ensures err { IfErr result IsOfReading }
{
    for _ in 0..u64::MAX {
        match input.read(buf) {
            Ok(n) => return Ok(n),
            Err(error) => {
                if !is_interrupted(&error) {
                    return Err(Failure::CannotRead(error));
                }
            }
        }
    }
    Err(Failure::CannotRead(io::Error::from(ErrorKind::TimedOut)))
}

/// Reads until the bytes are full or the input ends; how many were read. Where it fails, what is gone of the input is a beginning of it, no more than
/// there was room for.
pub fn read_all<R: Read>(input: &mut R, buf: &mut [u8]) -> Result<usize, Failure>
    ensures count { IfOk result (λ n. n ≤ length buf.new) }
    ensures bytes { IfOk result (λ n. Takes (length buf.old) (R.remaining input.old) (R.remaining input.new) (take n buf.new)) }
    ensures gone { Loses (length buf.old) (R.remaining input.old) (R.remaining input.new) }
    ensures none_asked { length buf.old ≡ 0 → result ≡ Ok 0 }
    ensures err { IfErr result IsOfReading }
{
    let mut done = 0;
    while done < buf.len() {
        let n = read_some(input, &mut buf[done..])?;
        if n == 0 {
            return Ok(done);
        }
        done += n;
    }
    Ok(done)
}

// Writes once, likewise.
fn write_some<W: Write>(output: &mut W, text: &[u8]) -> Result<usize, Failure>
    ensures count { IfOk result (λ n. n ≤ length text.now) }
    ensures bytes { WriteAppends (W.contents output.old) (W.contents output.new) result text.now }
    ensures err { IfErr result IsOfWriting }
{
    for _ in 0..u64::MAX {
        match output.write(text) {
            Ok(n) => return Ok(n),
            Err(error) => {
                if !is_interrupted(&error) {
                    return Err(Failure::CannotWrite(error));
                }
            }
        }
    }
    Err(Failure::CannotWrite(io::Error::from(ErrorKind::TimedOut)))
}

/// Writes all of a text. Where it fails, a beginning of it is written.
pub fn write_text<W: Write>(output: &mut W, text: &[u8]) -> Result<(), Failure>
    ensures ok { OnOk result (Appends (W.contents output.old) (W.contents output.new) text.now) }
    ensures begun { Begins (W.contents output.old) (W.contents output.new) text.now }
    ensures none_asked { length text.now ≡ 0 → IsOk result }
    ensures err { IfErr result IsOfWriting }
{
    let mut done = 0;
    while done < text.len() {
        let n = write_some(output, &text[done..])?;
        if n == 0 {
            return Err(Failure::CannotWrite(io::Error::from(ErrorKind::WriteZero)));
        }
        done += n;
    }
    Ok(())
}
