//! Why a program stops before its work is done, and how it says so.
ghost use Rattle.std.specs.Prelude.{◌≡◌, Some};
ghost use Rattle.std.specs.Process.{exit_status};
ghost use Rattle.text_programs.specs.declared.failure.Failure.TheVariants.{OutOfMemory};
ghost use Rattle.text_programs.specs.declared.failure.Stop.TheVariants.{Failed};
ghost use Rattle.text_programs.specs.Failures.{failure_text, cause_of, IsUsage, IsFailed};

use crate::usage::{Usage, Wrong};
use std::alloc::AllocError;
use std::io::{Eprint, ErrorKind};
use std::process::ExitCode;
use std::{fmt, io};

/// What could not be done. `CannotRead`, `CannotWrite`: standard input or output, with what the system said of it.
#[derive(Clone, Copy, Debug)]
pub enum Failure {
    OutOfMemory,
    CannotRead(io::Error),
    CannotWrite(io::Error),
}

impl From<AllocError> for Failure {
    ghost from_gives = { λ _ e. e ≡ OutOfMemory };

    fn from(_error: AllocError) -> Failure {
        Failure::OutOfMemory
    }
}

// What could not be done; why, `cause` says.
impl fmt::Display for Failure {
    ghost output = { λ failure. Some (failure_text failure) };

    fn fmt<W: fmt::Write>(&self, f: &mut fmt::Formatter<W>) -> fmt::Result {
        f.write_str(match *self {
            Failure::OutOfMemory => "out of memory",
            Failure::CannotRead(_) => "cannot read standard input",
            Failure::CannotWrite(_) => "cannot write standard output",
        })
    }
}

impl Failure {
    /// What the system said, where it was asked.
    pub fn cause(self) -> Option<io::Error>
        ensures { result ≡ cause_of self }
    {
        match self {
            Failure::CannotRead(error) | Failure::CannotWrite(error) => Some(error),
            Failure::OutOfMemory => None,
        }
    }

    // Whether what read the output has gone: nobody waits for the rest.
    fn is_unheard(self) -> bool {
        match self {
            Failure::CannotWrite(error) => error.kind() == ErrorKind::BrokenPipe,
            _ => false,
        }
    }

    // Its line on standard error; none where nobody waits for the output.
    fn tell<E: Eprint>(self, rt: &E, name: &str) -> io::Result<()> {
        if self.is_unheard() {
            return Ok(());
        }
        match self.cause() {
            Some(cause) => eprintln!(rt; "{name}: {self}: {cause}"),
            None => eprintln!(rt; "{name}: {self}"),
        }
    }
}

/// Why a program ends without having done its work: the arguments ask for nothing, or it failed.
#[derive(Clone, Copy, Debug)]
pub enum Stop<'a> {
    Usage(Wrong<'a>),
    Failed(Failure),
}

impl From<Failure> for Stop<'_> {
    ghost from_gives = { λ failure stop. stop ≡ Failed failure };

    fn from(failure: Failure) -> Self {
        Stop::Failed(failure)
    }
}

impl From<AllocError> for Stop<'_> {
    ghost from_gives = { λ _ stop. stop ≡ Failed OutOfMemory };

    fn from(error: AllocError) -> Self {
        Stop::Failed(Failure::from(error))
    }
}

impl Stop<'_> {
    /// Tells it on standard error, where nothing else goes; the status that the program ends with. A line that cannot be told is left out, and a reader
    /// of the output that has gone is told nothing.
    pub fn tell<E: Eprint>(self, rt: &E, usage: &Usage) -> ExitCode
        ensures usage { IsUsage self.entry → exit_status result ≡ 2 }
        ensures failed { IsFailed self.entry → exit_status result ≡ 1 }
    {
        let name = usage.program;
        match self {
            Stop::Usage(wrong) => {
                let _told = eprint!(rt; "{name}: {wrong}\n{usage}");
                ExitCode::from(2)
            }
            Stop::Failed(failure) => {
                let _told = failure.tell(rt, name);
                ExitCode::FAILURE
            }
        }
    }
}
