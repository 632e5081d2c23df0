//! The lines that are told of a tile, one for each attribute, LINE words each: layer (1) or paint (0), attribute, standing, whether it has an alpha index, that
//! index, nesting, panel.
ghost use Rattle.std.specs.Prelude.{◌≡◌, [], ◌∷◌, ◌+◌, ◌*◌, ◌≤◌, ◌<◌, length, eqb, leb};
ghost use Rattle.sizes.specs.Sizes.{most-attrs, line-size, line-table};
ghost use Rattle.cmd.specs.Attrs.{words-at};
ghost use Rattle.tile.specs.Telling.{alpha-words, line-words, standing-of};
ghost use Rattle.tile.specs.Places.{line_of};
ghost use Rattle.tile.specs.Standings.{standing_number, standing_in};
ghost use Rattle.tile.specs.Listed.{alpha-read, line_at};

use sizes::LINE;

/// How an attribute's step stands to the tile: the first that holds, in this order.
#[derive(Clone, Copy, Debug, PartialEq, Eq)]
pub enum Standing {
    /// Before the cut, nothing of it covers the tile.
    NoSegment,
    /// Nothing of it covers the tile after the cut.
    CutAway,
    /// The row is not touched for the layer that closes.
    Untouched,
    /// It has an entry in the tile's list, and hides nothing.
    Told,
    /// It has one, and hides what came before: an eligible solid segment over the whole bucket. It is tested before `Told`.
    Hides,
}

impl Standing {
    /// The word that a line has for it.
    pub fn word(self) -> u32
        ensures { result ≡ standing_number self }
    {
        match self {
            Standing::NoSegment => 0,
            Standing::CutAway => 1,
            Standing::Untouched => 2,
            Standing::Told => 3,
            Standing::Hides => 4,
        }
    }

    /// The standing of a line's word; no other word is one.
    pub fn read(word: u32) -> Option<Standing>
        ensures { result ≡ standing_in word }
    {
        match word {
            0 => Some(Standing::NoSegment),
            1 => Some(Standing::CutAway),
            2 => Some(Standing::Untouched),
            3 => Some(Standing::Told),
            4 => Some(Standing::Hides),
            _ => None,
        }
    }

    /// Whether it hides what came before.
    pub fn is_hiding(self) -> bool
        ensures { result ≡ eqb (standing_number self) 4 }
    {
        match self {
            Standing::Hides => true,
            _ => false,
        }
    }

    /// Whether it has an entry in the tile's list.
    pub fn is_told(self) -> bool
        ensures { result ≡ leb 3 (standing_number self) }
    {
        match self {
            Standing::Told => true,
            Standing::Hides => true,
            _ => false,
        }
    }
}

/// One line: a layer's attribute or a paint's, its place in their table, how it stands to the tile, and of what covers the tile the alpha index there, if it
/// has one.
#[derive(Clone, Copy, Debug, PartialEq, Eq)]
pub struct Line {
    pub layer: bool,
    pub attribute: u32,
    pub standing: Standing,
    pub alpha: Option<u32>,
    pub nesting: u32,
    pub panel: u32,
}

/// Which word of a line is the panel.
pub const LINE_PANEL: usize = 6;

/// The first that holds.
pub fn standing_of(covered: bool, kept: bool, touched: bool, hides: bool) -> Standing
    ensures { standing_number result ≡ standing-of covered kept touched hides }
{
    if !covered {
        Standing::NoSegment
    } else if !kept {
        Standing::CutAway
    } else if !touched {
        Standing::Untouched
    } else if hides {
        Standing::Hides
    } else {
        Standing::Told
    }
}

// An alpha index as two words: 1 and the index, or 0 and 0.
fn index_of(alpha: Option<u32>) -> (u32, u32)
    ensures { (result.0 ∷ result.1 ∷ []) ≡ alpha-words alpha [] }
{
    match alpha {
        None => (0, 0),
        Some(index) => (1, index),
    }
}

/// Stores line i: lines stand in the order in which the attributes are added.
pub fn put_line(lines: &mut [u32], i: u32, line: Line)
    requires line { i < most-attrs + most-attrs }
    requires lines { length lines.old ≡ line-table }
    ensures { lines.new ≡ words-at lines.old (line-size * i) (line-words (line_of line)) }
{
    let (flag, index) = index_of(line.alpha);
    let at = LINE * i as usize;
    lines[at] = u32::from(line.layer);
    lines[at + 1] = line.attribute;
    lines[at + 2] = line.standing.word();
    lines[at + 3] = flag;
    lines[at + 4] = index;
    lines[at + 5] = line.nesting;
    lines[at + LINE_PANEL] = line.panel;
}

// An alpha index of the two words.
fn alpha_of(flag: u32, index: u32) -> Option<u32>
    ensures { result ≡ alpha-read flag index }
{
    if flag == 0 { None } else { Some(index) }
}

/// Line i, read back. A word that is no standing, which no line has, goes for one that is told.
#[tactic(auto, unfolding(crate::specs::Listed::line_at))]
pub fn line_at(lines: &[u32], i: usize) -> Line
    requires line { i < most-attrs + most-attrs }
    requires lines { line-size * (i + 1) ≤ length lines.now }
    ensures { line_of result ≡ line_at lines.now i }
{
    let at = LINE * i;
    Line {
        layer: lines[at] == 1,
        attribute: lines[at + 1],
        standing: Standing::read(lines[at + 2]).unwrap_or(Standing::Told),
        alpha: alpha_of(lines[at + 3], lines[at + 4]),
        nesting: lines[at + 5],
        panel: lines[at + LINE_PANEL],
    }
}
