//! What the arguments after the options ask of a program about tiles, or what is wrong with them.
ghost use Rattle.std.specs.Prelude.{◌≡◌, map, string_bytes};
ghost use Rattle.std.specs.Result.{result_ok};
ghost use Rattle.text_programs.specs.Arguments.{number_of};
ghost use Rattle.text_tiles.specs.Requests.{place_of, request_of};

use text_programs::options::number;
use text_programs::usage::{Wrong, wrong_option};

/// Where a tile is: its row, and its place in the row, each from 0 on the screen.
#[derive(Clone, Copy, Debug, PartialEq, Eq)]
pub struct TilePlace {
    pub row: u32,
    pub tile: u32,
}

/// What is asked about: each item of a stream, at the tile that its head names, or one file, at a tile.
#[derive(Clone, Copy, Debug, PartialEq, Eq)]
pub enum Request {
    Stream,
    File(TilePlace),
}

// What a word is that is no number.
fn no_number(text: &str) -> Wrong<'_> {
    if text.starts_with('-') {
        return Wrong::NoOption(text);
    }
    Wrong::NoNumber(text)
}

/// A number among the arguments.
pub fn read_number(text: &str) -> Result<u32, Wrong<'_>>
    ensures { result_ok result ≡ number_of text.now }
{
    number(text).ok_or(no_number(text))
}

/// A tile, by its row and its place there.
pub fn read_place<'a>(row: &'a str, tile: &'a str) -> Result<TilePlace, Wrong<'a>>
    ensures { result_ok result ≡ place_of row.now tile.now }
{
    let row = read_number(row)?;
    let tile = read_number(tile)?;
    Ok(TilePlace { row, tile })
}

// What is wrong with arguments of which there are too few or too many.
fn wrong_count(others: &[String]) -> Wrong<'_> {
    match others {
        [] => Wrong::Missing("ROW"),
        [_, _, extra, ..] => Wrong::TooMany(extra.as_str()),
        [_, ..] => Wrong::Missing("TILE"),
    }
}

/// What the arguments after the options ask where nothing stands after the tile, or what is wrong with them.
pub fn read_request(others: &[String]) -> Result<Request, Wrong<'_>>
    ensures { result_ok result ≡ request_of (map string_bytes others.now) }
{
    match others {
        [word] if word.as_str() == "--stream" => Ok(Request::Stream),
        [row, tile] => {
            let place = read_place(row.as_str(), tile.as_str())?;
            Ok(Request::File(place))
        }
        _ => Err(wrong_count(others)),
    }
}

/// What is wrong with arguments that ask for nothing, given what was found as a question: nothing may stand after `--stream`, and a first word that is meant
/// as an option comes before what follows it.
pub fn wrong_request<'a>(others: &'a [String], found: Wrong<'a>) -> Wrong<'a> {
    match others {
        [first, extra, ..] if first.as_str() == "--stream" => Wrong::TooMany(extra.as_str()),
        _ => wrong_option(others).unwrap_or(found),
    }
}
