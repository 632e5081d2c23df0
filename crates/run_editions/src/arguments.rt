//! What the arguments ask, or what is wrong with them.
ghost use Rattle.std.specs.Prelude.{◌≡◌, ◌<◌, IfSome, length, map, string_bytes, MatchOption};
ghost use Rattle.std.specs.Result.{result_ok};
ghost use Rattle.rect.specs.Rects.{mode_of};
ghost use Rattle.run_editions.specs.Requests.{way_of, ask_of, read_arguments, NoSnap, OneSnap};

use crate::conversion::Way;
use rect::Mode;
use text_programs::usage::Wrong;

/// What is asked: one file, or each file of a stream, converted one way.
#[derive(Clone, Copy, Debug, PartialEq, Eq)]
pub enum Ask {
    File(Way),
    Stream(Way),
}

/// What the options at the front of the arguments choose, and the arguments after them.
#[derive(Clone, Copy)]
pub struct Options<'a> {
    pub mode: Mode,
    pub others: &'a [String],
}

// The arguments after the option that stands first; none where no option stands there.
fn after_snap(args: &[String]) -> Option<&[String]>
    ensures shorter { IfSome result (λ rest. length rest.now < length args.now) }
    ensures left { MatchOption result (NoSnap (map string_bytes args.now))
        (λ rest. OneSnap (map string_bytes args.now) (map string_bytes rest.now)) }
{
    let (word, rest) = args.split_first()?;
    if word.as_str() != "--snap" {
        return None;
    }
    Some(rest)
}

/// The options at the front of the arguments: the exact mode without `--snap`. Whatever is none ends them.
pub fn read_options(args: &[String]) -> Options<'_>
    ensures mode { mode_of result.mode ≡ (read_arguments (map string_bytes args.now)).mode }
    ensures others { map string_bytes result.others.now ≡ (read_arguments (map string_bytes args.now)).others }
{
    let mut mode = Mode::Exact;
    let mut others = args;
    while let Some(rest) = after_snap(others) {
        mode = Mode::Snapping;
        others = rest;
    }
    Options { mode, others }
}

fn read_way(word: &str) -> Option<Way>
    ensures { result ≡ way_of word.now }
{
    match word {
        "new" => Some(Way::New),
        "old" => Some(Way::Old),
        _ => None,
    }
}

// What is wrong with a first word that asks for nothing, and with one after it.
fn wrong_first<'a>(word: &'a str, others: &'a [String]) -> Wrong<'a> {
    if read_way(word).is_some() {
        if let Some(extra) = others.get(1) {
            return Wrong::TooMany(extra.as_str());
        }
    }
    match word {
        "--help" | "-h" | "--version" => Wrong::NotAlone(word),
        _ if word.starts_with('-') => Wrong::NoOption(word),
        _ => Wrong::NoWay(word),
    }
}

// What is wrong with arguments that ask for nothing.
fn wrong_word(others: &[String]) -> Wrong<'_> {
    match others {
        [] => Wrong::Missing("new or old"),
        [first] if first.as_str() == "--stream" => Wrong::Missing("new or old"),
        [first, way, ..] if first.as_str() == "--stream" && read_way(way.as_str()).is_none() => {
            Wrong::NoWay(way.as_str())
        }
        [first, _, extra, ..] if first.as_str() == "--stream" => Wrong::TooMany(extra.as_str()),
        [first, ..] => wrong_first(first.as_str(), others),
    }
}

/// What the arguments after the options ask, or what is wrong with them.
pub fn read_ask(others: &[String]) -> Result<Ask, Wrong<'_>>
    ensures { result_ok result ≡ ask_of (map string_bytes others.now) }
{
    match others {
        [word] => match read_way(word.as_str()) {
            Some(way) => Ok(Ask::File(way)),
            None => Err(wrong_word(others)),
        },
        [first, word] if first.as_str() == "--stream" => match read_way(word.as_str()) {
            Some(way) => Ok(Ask::Stream(way)),
            None => Err(wrong_word(others)),
        },
        _ => Err(wrong_word(others)),
    }
}
