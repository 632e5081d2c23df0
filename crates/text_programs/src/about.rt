//! What a program says of itself: its usage, its version.
ghost use Rattle.std.specs.Prelude.{◌≡◌, ◌⊎◌, Some, map, string_bytes, OnOk, IfErr};
ghost use Rattle.std.specs.Io.KnownBytes.{Appends};
ghost use Rattle.text_programs.specs.Failures.{IsOfWriting, Begins};
ghost use Rattle.text_programs.specs.Arguments.{asked_about};
ghost use Rattle.text_programs.specs.Abouts.{about_text};

use crate::failure::Failure;
use crate::usage::Usage;
use crate::write_text;
use std::alloc::Global;
use std::fmt;
use std::io::Write;

/// The repository's version.
pub const VERSION: &str = "0.3.0";

/// The kit that it is proved with: its name and the sum of its logic.
pub const KIT: &str = "rattle-kit-13f dac8208d650f15bf";

/// What a program is asked to say of itself.
#[derive(Clone, Copy, Debug, PartialEq, Eq)]
pub enum About {
    Usage,
    Version,
}

/// What a program is asked to say of itself, by its only argument; none where it is asked something else.
pub fn asked_about(args: &[String]) -> Option<About>
    ensures { result ≡ asked_about (map string_bytes args.now) }
{
    let [word] = args else {
        return None;
    };
    let word = word.as_str();
    if word == "--help" || word == "-h" {
        return Some(About::Usage);
    }
    if word == "--version" {
        return Some(About::Version);
    }
    None
}

// What it says.
#[derive(Clone, Copy)]
struct Said<'a> {
    usage: &'a Usage,
    about: About,
}

impl fmt::Display for Said<'_> {
    ghost output = { λ said. Some (about_text said.usage.now.program.now said.usage.now.calls.now said.usage.now.options.now said.usage.now.screen.now said.about) };

    fn fmt<W: fmt::Write>(&self, f: &mut fmt::Formatter<W>) -> fmt::Result {
        match self.about {
            About::Usage => write!(f, "{}", self.usage),
            About::Version => writeln!(f, "{} {VERSION} {KIT}", self.usage.program),
        }
    }
}

/// Writes it.
pub fn print_about<W: Write>(
    alloc: Global,
    output: &mut W,
    usage: &Usage,
    about: About,
) -> Result<(), Failure>
    ensures ok { OnOk result (Appends (W.contents output.old) (W.contents output.new)
        (about_text usage.now.program.now usage.now.calls.now usage.now.options.now usage.now.screen.now about)) }
    ensures begun { Begins (W.contents output.old) (W.contents output.new)
        (about_text usage.now.program.now usage.now.calls.now usage.now.options.now usage.now.screen.now about) }
    ensures unwritten { IfErr result (λ e. IsOfWriting e ⊎ (output.new ≡ output.old)) }
{
    let text = Said { usage, about }.to_string(alloc)?;
    write_text(output, text.as_bytes())
}
