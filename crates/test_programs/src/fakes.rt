//! An input and an output that do at each call what the next of their turns says.
use std::io;
use std::io::{ErrorKind, Read, Write};

/// At most so many bytes, or a failure.
#[derive(Clone, Copy)]
pub enum Turn {
    Bytes(usize),
    Fails(ErrorKind),
}

/// Gives its bytes from the first on; after the last turn, or the last byte, it has ended.
#[derive(Drop)]
pub struct Input<'a> {
    pub turns: &'a [Turn],
    pub bytes: &'a [u8],
}

impl Read for Input<'_> {
    fn read(&mut self, buf: &mut [u8]) -> io::Result<usize> {
        let Some((turn, rest)) = self.turns.split_first() else {
            return Ok(0);
        };
        self.turns = rest;
        match *turn {
            Turn::Fails(kind) => Err(io::Error::from(kind)),
            Turn::Bytes(most) => {
                let n = most.min(buf.len()).min(self.bytes.len());
                buf[..n].copy_from_slice(&self.bytes[..n]);
                self.bytes = &self.bytes[n..];
                Ok(n)
            }
        }
    }
}

/// Keeps what is written; after the last turn it takes nothing.
#[derive(Drop)]
pub struct Output<'a> {
    pub turns: &'a [Turn],
    pub held: Vec<u8>,
}

impl Write for Output<'_> {
    fn write(&mut self, buf: &[u8]) -> io::Result<usize> {
        let Some((turn, rest)) = self.turns.split_first() else {
            return Ok(0);
        };
        self.turns = rest;
        match *turn {
            Turn::Fails(kind) => Err(io::Error::from(kind)),
            Turn::Bytes(most) => {
                let n = most.min(buf.len());
                self.held.extend_from_slice(&buf[..n])?;
                Ok(n)
            }
        }
    }

    fn flush(&mut self) -> io::Result<()> {
        Ok(())
    }
}
