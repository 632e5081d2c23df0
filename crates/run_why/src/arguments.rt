//! What the arguments after the options ask, or what is wrong with them.
ghost use Rattle.std.specs.Prelude.{◌≡◌, map, string_bytes};
ghost use Rattle.std.specs.Result.{result_ok};
ghost use Rattle.run_why.specs.Requests.{question_of, ask_of};

use text_programs::usage::Wrong;
use text_tiles::arguments::{Request, read_number, read_place, read_request};
use text_why::Question;
use tile::Asked;

/// What is asked, and of what.
#[derive(Clone, Copy, Debug, PartialEq, Eq)]
pub struct Ask {
    pub request: Request,
    pub question: Question,
}

// A question about one attribute.
fn read_question<'a>(kind: &'a str, attribute: &'a str) -> Result<Question, Wrong<'a>>
    ensures { result_ok result ≡ question_of kind.now attribute.now }
{
    let layer = match kind {
        "draw" => false,
        "layer" => true,
        _ => return Err(Wrong::NoKind(kind)),
    };
    let attribute = read_number(attribute)?;
    Ok(Question::One(Asked { layer, attribute }))
}

// What is wrong with a third argument that stands last.
fn wrong_kind(kind: &str) -> Wrong<'_> {
    match kind {
        "draw" | "layer" => Wrong::Unfollowed(kind),
        _ => Wrong::NoKind(kind),
    }
}

/// What the arguments after the options ask, or what is wrong with them.
pub fn read_ask(others: &[String]) -> Result<Ask, Wrong<'_>>
    ensures { result_ok result ≡ ask_of (map string_bytes others.now) }
{
    match others {
        [_, _, kind] => Err(wrong_kind(kind.as_str())),
        [row, tile, kind, attribute] => {
            let question = read_question(kind.as_str(), attribute.as_str())?;
            let place = read_place(row.as_str(), tile.as_str())?;
            Ok(Ask {
                request: Request::File(place),
                question,
            })
        }
        [_, _, _, _, .., last] => Err(Wrong::TooMany(last.as_str())),
        _ => {
            let request = read_request(others)?;
            Ok(Ask {
                request,
                question: Question::Every,
            })
        }
    }
}
