//! Why a tile shows what it shows: a reason, read off the lines that were told of the tile (docs/RULES.md, Why a tile shows what it shows). Parts.
ghost use Rattle.std.specs.Prelude.{◌≡◌, ◌+◌, ◌*◌, ◌≤◌, ◌<◌, cond, length};
ghost use Rattle.rules_reason.specs.Reasons.{hidden-by, shown-at};
ghost use Rattle.sizes.specs.Sizes.{most-attrs, line-size, line-table};
ghost use Rattle.tile.specs.Reading.{mark_at, is-asked, read, reason-by, reason-read};
ghost use Rattle.tile.specs.Reasons.{reason-of, asked_of, mark_of, search-of};
ghost use Rattle.tile.specs.Standings.{plain_mark};

use crate::steps::lines::{LINE_PANEL, Standing};
use sizes::LINE;

/// `attribute` is the paint attribute of the newest eligible solid segment over the tile's whole bucket, `hider_panel` its panel; `panel` the asked
/// attribute's.
#[derive(Clone, Copy, Debug, PartialEq, Eq)]
pub struct Hidden {
    pub attribute: u32,
    pub hider_panel: u32,
    pub panel: u32,
}

/// `place` is the entry's place in the tile's list, from 0; `panel` the asked attribute's.
#[derive(Clone, Copy, Debug, PartialEq, Eq)]
pub struct Shown {
    pub place: u32,
    pub panel: u32,
}

/// The first that holds, in this order; with the asked attribute's panel, where there is such an attribute.
#[derive(Clone, Copy, Debug, PartialEq, Eq)]
pub enum Reason {
    // No step adds it.
    UnknownAttribute,
    // Before the cut, nothing of its step covers the tile.
    NoSegment(u32),
    // The tile is covered before the cut, and not after.
    CutAway(u32),
    // The row is not touched for the layer that closes.
    RowUntouched(u32),
    // An eligible solid segment over the tile's whole bucket came after it.
    HiddenBy(Hidden),
    // It stands in the tile's list.
    ShownAt(Shown),
}

/// An attribute that is asked about: a layer's, or a paint's, and its place in their table.
#[derive(Clone, Copy, Debug, PartialEq, Eq)]
pub struct Asked {
    pub layer: bool,
    pub attribute: u32,
}

// What a reason goes by of a line: layer 1 or paint 0, attribute, standing, panel.
#[derive(Clone, Copy)]
struct Mark {
    layer: u32,
    attribute: u32,
    standing: Standing,
    panel: u32,
}

impl Mark {
    // It is the asked attribute's.
    fn is_of(self, asked: Asked) -> bool
        ensures { result ≡ is-asked (asked_of asked) (mark_of self) }
    {
        self.layer == u32::from(asked.layer) && self.attribute == asked.attribute
    }
}

// Of line i. A word that is no standing, which no line has, goes for one that is told.
#[tactic(auto, unfolding(crate::specs::Reading::mark_at))]
fn mark_at(lines: &[u32], i: usize) -> Mark
    requires line { i < most-attrs + most-attrs }
    requires lines { line-size * (i + 1) ≤ length lines.now }
    ensures { mark_of result ≡ plain_mark (mark_at lines.now i) }
{
    let at = LINE * i;
    Mark {
        layer: lines[at],
        attribute: lines[at + 1],
        standing: Standing::read(lines[at + 2]).unwrap_or(Standing::Told),
        panel: lines[at + LINE_PANEL],
    }
}

// What is known of the asked attribute after some lines. found: its line was there, with this standing, this panel and, where it was told, this place in the
// tile's list; hidden: what hides it came later. count: how long the tile's list is so far; hider: the attribute of the newest that hides.
#[derive(Clone, Copy)]
struct Search {
    found: bool,
    standing: Standing,
    place: u32,
    hidden: bool,
    count: u32,
    hider: u32,
    hider_panel: u32,
    panel: u32,
}

// One more line.
fn read_line(asked: Asked, search: Search, mark: Mark) -> Search
    requires { search.count < line-table }
    ensures { search-of result ≡ read (asked_of asked) (mark_of mark) (search-of search) }
{
    let mut next = search;
    if mark.standing.is_hiding() {
        next.hidden = search.found;
        next.count = 0;
        next.hider = mark.attribute;
        next.hider_panel = mark.panel;
    }
    if mark.is_of(asked) && !search.found {
        next.found = true;
        next.standing = mark.standing;
        next.place = next.count;
        next.hidden = false;
        next.panel = mark.panel;
    }
    if mark.standing.is_told() {
        next.count += 1;
    }
    next
}

// Of an attribute that has an entry in the tile's list.
fn reason_told(search: Search) -> Reason
    ensures { reason-of result ≡ cond search.hidden (hidden-by search.hider search.hider_panel search.panel) (shown-at search.place search.panel) }
{
    if search.hidden {
        return Reason::HiddenBy(Hidden {
            attribute: search.hider,
            hider_panel: search.hider_panel,
            panel: search.panel,
        });
    }
    Reason::ShownAt(Shown {
        place: search.place,
        panel: search.panel,
    })
}

// The first that holds.
fn reason_by(search: Search) -> Reason
    ensures { reason-of result ≡ reason-by (search-of search) }
{
    if !search.found {
        return Reason::UnknownAttribute;
    }
    match search.standing {
        Standing::NoSegment => Reason::NoSegment(search.panel),
        Standing::CutAway => Reason::CutAway(search.panel),
        Standing::Untouched => Reason::RowUntouched(search.panel),
        _ => reason_told(search),
    }
}

/// The reason that the first n lines give of an attribute.
pub fn reason_of(lines: &[u32], n: usize, asked: Asked) -> Reason
    requires few { n ≤ most-attrs + most-attrs }
    requires long { line-size * n ≤ length lines.now }
    ensures { reason-of result ≡ reason-read (asked_of asked) lines.now n }
{
    let mut search = Search {
        found: false,
        standing: Standing::NoSegment,
        place: 0,
        hidden: false,
        count: 0,
        hider: 0,
        hider_panel: 0,
        panel: 0,
    };
    for i in 0..n {
        search = read_line(asked, search, mark_at(lines, i));
    }
    reason_by(search)
}
