//! The programs' usages, and what is wrong with arguments that ask for nothing.
ghost use Rattle.std.specs.Prelude.{Some};
ghost use Rattle.text_programs.specs.Usages.{refusal_lines, usage_text};

use sizes::answers::Refusal;
use std::fmt;

/// What is wrong with a program's arguments: the first word that is, or what is missing.
#[derive(Clone, Copy, Debug)]
pub enum Wrong<'a> {
    // An argument is no text.
    NoText,
    // One that has to be there is not: its name.
    Missing(&'a str),
    NoOption(&'a str),
    NoNumber(&'a str),
    // A number has to follow it, and nothing does.
    Unfollowed(&'a str),
    // It stands where `draw` or `layer` has to.
    NoKind(&'a str),
    // It stands where `new` or `old` has to.
    NoWay(&'a str),
    // It asks what the program says of itself, and other arguments stand beside it.
    NotAlone(&'a str),
    TooMany(&'a str),
}

impl fmt::Display for Wrong<'_> {
    fn fmt<W: fmt::Write>(&self, f: &mut fmt::Formatter<W>) -> fmt::Result {
        match *self {
            Wrong::NoText => f.write_str("an argument is no text"),
            Wrong::Missing(name) => write!(f, "{name} is missing"),
            Wrong::NoOption(word) => write!(f, "{word} is no option"),
            Wrong::NoNumber(word) => write!(f, "{word} is no number"),
            Wrong::Unfollowed(word) => write!(f, "{word} wants a number after it"),
            Wrong::NoKind(word) => write!(f, "{word} is neither draw nor layer"),
            Wrong::NoWay(word) => write!(f, "{word} is neither new nor old"),
            Wrong::NotAlone(word) => write!(f, "{word} stands alone or not at all"),
            Wrong::TooMany(word) => write!(f, "{word} is one argument too many"),
        }
    }
}

/// What is wrong with arguments that begin with a word that is meant as an option; none where the first is not.
pub fn wrong_option(args: &[String]) -> Option<Wrong<'_>> {
    let (first, rest) = args.split_first()?;
    match first.as_str() {
        "--width" | "--edition" => match rest.first() {
            Some(text) => Some(Wrong::NoNumber(text.as_str())),
            None => Some(Wrong::Unfollowed(first.as_str())),
        },
        "--help" | "-h" | "--version" => Some(Wrong::NotAlone(first.as_str())),
        word if word.starts_with('-') => Some(Wrong::NoOption(word)),
        _ => None,
    }
}

/// The options that every program has that asks for a screen.
pub const SCREEN_OPTIONS: &str =
    "  --snap       read the viewport in snapping mode\n  --width N    N pixels a depth bucket: 64, 128 or 256; without it 128\n  \
    --edition N  files of edition N, 1 or 2; without it 1\n";

// The options that every program has, and the line before the refusals.
const COMMON: &str =
    "  --help       print this; so does -h; no other argument may stand beside it\n  \
    --version    print the version, and the kit that it is proved with; likewise alone\nwhat `refused N` stands for:\n";

/// A program's usage: its name, how it is called, up to its options, a line for each option of its own, and those of the options of a screen, if it asks
/// for one.
#[derive(Clone, Copy)]
pub struct Usage {
    pub program: &'static str,
    pub calls: &'static str,
    pub options: &'static str,
    pub screen: &'static str,
}

// What the number of a refusal stands for: a line for each.
#[derive(Clone, Copy)]
struct Numbers;

impl fmt::Display for Numbers {
    ghost output = { λ _. Some refusal_lines };

    fn fmt<W: fmt::Write>(&self, f: &mut fmt::Formatter<W>) -> fmt::Result {
        for refusal in Refusal::ALL {
            writeln!(f, "  {}: {refusal}", refusal.number())?;
        }
        Ok(())
    }
}

impl fmt::Display for Usage {
    ghost output = { λ usage. Some (usage_text usage.calls.now usage.options.now usage.screen.now) };

    fn fmt<W: fmt::Write>(&self, f: &mut fmt::Formatter<W>) -> fmt::Result {
        f.write_str(self.calls)?;
        f.write_str(self.options)?;
        f.write_str(self.screen)?;
        f.write_str(COMMON)?;
        write!(f, "{}", Numbers)
    }
}
