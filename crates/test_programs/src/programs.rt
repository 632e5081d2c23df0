//! The programs' `run` over readers and writers that fail, and what the original prints of a recording.
use crate::fakes::{Input, Output, Turn};
use run_editions::Outcome;
use std::alloc::{AllocError, Global};
use std::io::ErrorKind;
use text_programs::failure::{Failure, Stop};

/// samples/worked.rec.
pub const WORKED: [u32; 69] = [
    1, 0, 0, 256, 8, 1, 1, 1, 0, 0, 2, 0, 0, 10, 64, 0, 0, 1, 0, 8, 0, 2, 0, 0, 1, 0, 0, 3, 0, 0,
    1, 2, 0, 0, 3, 0, 1, 0, 1, 2, 0, 3, 1056964608, 0, 0, 0, 0, 0, 0, 0, 0, 0, 0, 0, 0, 0, 0, 0, 0,
    2, 0, 1, 1, 1, 2, 0, 1, 0, 1,
];

/// .. in edition two, its draws for panel 5, its layer for panel 6.
pub const WORKED_TWO: [u32; 74] = [
    1, 2, 1, 0, 0, 256, 8, 1, 1, 1, 0, 0, 2, 0, 0, 10, 64, 0, 0, 1, 0, 8, 0, 2, 0, 0, 1, 0, 0, 3,
    0, 5, 0, 1, 2, 0, 0, 3, 0, 5, 1, 0, 1, 2, 0, 3, 1056964608, 0, 0, 0, 0, 0, 0, 0, 0, 0, 0, 0, 0,
    0, 0, 0, 0, 6, 2, 0, 1, 1, 1, 2, 0, 1, 0, 1,
];

/// What the original lists of it.
pub const LIST: &[u8] =
    b"rows 2 buckets 2 ids 3\nrow 0 depth 1 render 1\nD 1 2 0\nP 10 32 - 0\nrow 1 depth 0 render 4\nB 0 64\nP 0 8 - 1\nL 0 64 - 0\nE\n";

/// What the original tells of it in a stream, under the line with its number.
pub const DUMP: &[u8] =
    b"rows 2 buckets 2 ids 3\nrow 0 depth 1 render 1\nD 1 2 0\nP 10 32 - 0\nrow 1 depth 0 render 4\nB 0 64\n\
        P 0 8 - 1\nL 0 64 - 0\nE\npaint attributes 2\nA 0 0 3 0 1 0 0 0\nA 0 0 3 0 2 0 0 0\nlayer attributes 1\n\
        Y 0 3 1056964608 0 3 0\nfilter paints 0\npainted 0 pieces 2\np 0 32 64 - 0\np 0 10 32 - 0\n\
        painted 1 pieces 2\np 1 0 8 - 1\nl 0 0 64 - 1\n";

/// As many bytes as there are.
pub const ANY: usize = usize::MAX;

/// Which program runs.
#[derive(Clone, Copy)]
pub enum Program {
    Rowlist,
    Rowdump,
    Why,
    Tilelist,
    Editions,
    Figures,
}

/// How a run ended: done, a file refused, a usage with its first line, or a failure of memory, of reading or of writing.
#[derive(Debug, Drop, PartialEq, Eq)]
pub enum End {
    Done,
    Refused(u32),
    Usage(String),
    NoMemory,
    Read(ErrorKind),
    Write(ErrorKind),
}

fn ended(alloc: Global, ran: Result<(), Stop<'_>>) -> Result<End, AllocError> {
    Ok(match ran {
        Ok(()) => End::Done,
        Err(Stop::Usage(wrong)) => End::Usage(format!(in alloc; "{wrong}")?),
        Err(Stop::Failed(Failure::OutOfMemory)) => End::NoMemory,
        Err(Stop::Failed(Failure::CannotRead(error))) => End::Read(error.kind()),
        Err(Stop::Failed(Failure::CannotWrite(error))) => End::Write(error.kind()),
    })
}

/// Runs a program on words; how it ended, and what it has written.
pub fn run(
    alloc: Global,
    program: Program,
    args: &[&str],
    words: &[u32],
    reads: &[Turn],
    writes: &[Turn],
) -> Result<(End, Vec<u8>), AllocError> {
    let mut given = Vec::new(alloc);
    for arg in args {
        given.push(arg.to_string(alloc)?)?;
    }
    let mut bytes = Vec::new(alloc);
    for word in words {
        bytes.extend_from_slice(&word.to_le_bytes())?;
    }
    let mut input = Input {
        turns: reads,
        bytes: bytes.as_slice(),
    };
    let mut output = Output {
        turns: writes,
        held: Vec::new(alloc),
    };
    let ran = match program {
        Program::Rowlist => run_rowlist::run(alloc, given.as_slice(), &mut input, &mut output),
        Program::Rowdump => run_rowdump::run(alloc, given.as_slice(), &mut input, &mut output),
        Program::Why => run_why::run(alloc, given.as_slice(), &mut input, &mut output),
        Program::Tilelist => run_tilelist::run(alloc, given.as_slice(), &mut input, &mut output),
        Program::Figures => run_figures::run(alloc, given.as_slice(), &mut input, &mut output),
        Program::Editions => {
            match run_editions::run(alloc, given.as_slice(), &mut input, &mut output) {
                Ok(Outcome::Done) => Ok(()),
                Ok(Outcome::Refused(refusal)) => {
                    return Ok((End::Refused(refusal.number()), output.held));
                }
                Err(stop) => Err(stop),
            }
        }
    };
    let end = ended(alloc, ran)?;
    Ok((end, output.held))
}
