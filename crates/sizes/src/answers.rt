//! The rules' answers: the refusals with their numbers (docs/RULES.md, Answers). Answer 0, done, is `Ok`.
ghost use Rattle.std.specs.Prelude.{◌≡◌, Some, map};
ghost use Rattle.std.specs.List.{range_with_len};
ghost use Rattle.sizes.specs.Refusals.{number_of, answer_number, refusal_text};

use std::fmt;

/// Why a call refuses; the discriminant is the rules' number.
#[derive(Clone, Copy, Debug, PartialEq, Eq)]
pub enum Refusal {
    // The length of a lent arena (render commands, depth fills, depth words, minima) is not the screen's, or C or D is not from 1 to 1,024.
    BadArena = 1,
    // The viewport breaks a bound, or a number of pixels is no width of a bucket.
    BadViewport = 2,
    // The file is not exactly its counted sections.
    BadForm = 3,
    // Any other field or range out of bounds, or a lent table of a wrong length, in what is given or in what is lent.
    BadRecord = 4,
    // A segment list breaks its order.
    BadOrder = 5,
    // A push with 16 layers open.
    Deep = 6,
    // A pop with none open.
    NoLayer = 7,
    // The step takes an id, and none is left.
    Ids = 8,
    // Attributes or filter paints pass their limit.
    FullAttrs = 9,
    // A row would get more than C commands.
    FullRow = 10,
    // A row would get more than D depth fills.
    FullDepth = 11,
    // No such row or tile; a range that starts after its end or passes its limit; id 0 where it is written.
    BadRun = 12,
    // Painting is begun with a layer open; or a painting step with a layer open, or where painting has not begun.
    Open = 13,
    // The list lent for a result is shorter than the result.
    NoRoom = 14,
    // A draw or a layer of a file has a panel that is not 0, and edition one has no word for it.
    HasPanels = 15,
}

impl Refusal {
    /// All of them, in the order of their numbers.
    pub const ALL: [Refusal; 15] = [
        Refusal::BadArena,
        Refusal::BadViewport,
        Refusal::BadForm,
        Refusal::BadRecord,
        Refusal::BadOrder,
        Refusal::Deep,
        Refusal::NoLayer,
        Refusal::Ids,
        Refusal::FullAttrs,
        Refusal::FullRow,
        Refusal::FullDepth,
        Refusal::BadRun,
        Refusal::Open,
        Refusal::NoRoom,
        Refusal::HasPanels,
    ];

    /// The rules' number, 1 to 15, as calls answer it.
    pub fn number(self) -> u32
        ensures { result ≡ number_of self }
    {
        self as u32
    }
}

// There is one for each number from 1 to 15, in order.
fn tied_refusals() -> [Refusal; 15]
    ensures { map number_of result ≡ range_with_len 1 15 }
{
    Refusal::ALL
}

// A refusal is its number.
impl From<Refusal> for u32 {
    ghost from_gives = { λ refusal number. number ≡ number_of refusal };

    fn from(refusal: Refusal) -> u32 {
        refusal.number()
    }
}

// A refusal in plain words, for programs.
impl fmt::Display for Refusal {
    ghost output = { λ refusal. Some (refusal_text refusal) };

    fn fmt<W: fmt::Write>(&self, f: &mut fmt::Formatter<W>) -> fmt::Result {
        f.write_str(match self {
            Refusal::BadArena => "an arena has the wrong length",
            Refusal::BadViewport => "the viewport breaks a rule, or there is no such bucket width",
            Refusal::BadForm => "the file is not exactly its sections",
            Refusal::BadRecord => "a record is out of bounds",
            Refusal::BadOrder => "a segment list is out of order",
            Refusal::Deep => "16 layers are open",
            Refusal::NoLayer => "no layer is open",
            Refusal::Ids => "no draw id remains",
            Refusal::FullAttrs => "the attributes are full",
            Refusal::FullRow => "a row's commands are full",
            Refusal::FullDepth => "a row's depth fills are full",
            Refusal::BadRun => "there is no such row, tile or run",
            Refusal::Open => "a layer is open, or painting has not begun",
            Refusal::NoRoom => "the list has no room for the result",
            Refusal::HasPanels => "a draw or a layer has a panel, and edition one has none",
        })
    }
}

/// The number of a result: 0 where nothing is refused.
pub fn answer_number(judged: Result<(), Refusal>) -> u32
    ensures { result ≡ answer_number judged }
{
    match judged {
        Ok(()) => 0,
        Err(refusal) => refusal.number(),
    }
}
