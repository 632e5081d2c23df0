//! What `rowdump` prints of a screen after the lines of `rowlist`. `attrs_text` and `row_text` are public calls; the others are parts.
//! `panels`: whether a line with a panel shows it.
ghost use Rattle.std.specs.Prelude.{◌≡◌, true, false, [], ◌∷◌, ◌+◌, ◌*◌, ◌≤◌, length};
ghost use Rattle.sizes.specs.Sizes.{most-attrs, most-filters, piece-size};
ghost use Rattle.text.specs.Details.{painted};
ghost use Rattle.text.specs.Texts.{Writes};
ghost use Rattle.text.specs.Bytes.{detail-bytes, details-text};
ghost use Rattle.paint.specs.Stepping.{attributes};
ghost use Rattle.text.specs.Listed.{left, listing_of};
ghost use Rattle.text.specs.Pieces.{most-pieces, piece-list, alpha-of, letter-of, piece-at, pieces-at, row-lines};
ghost use Rattle.text.specs.Dumped.{pieces-written, stopped_in, stopped, row_in, row-dumped, tables_of, good-tables, attrs-room, attrs-text, attrs-dumped};
ghost use Rattle.paint.specs.Named.{SameCanvas, row_attrs, row_lent};

use crate::details::{
    DETAIL, PIECE_LINE, print_filter_paints, print_layer_attrs, print_paint_attrs, print_panel,
};
use crate::listing::try_print_first;
use crate::{Out, Print};
use paint::{Canvas, Stored, paint_row, paint_step};
use screen::Screen;
use sizes::answers::Refusal;
use sizes::{
    FILTER_TABLE, LAYER_TABLE, MOST_ATTRS, MOST_FILTERS, MOST_RUNS, OPACITIES, PAINT_TABLE, PIECE,
    PROGRAM_BUCKETS, PROGRAM_ROOM,
};

/// The most pieces of a row of the programs' screens.
pub const PIECES: usize = PROGRAM_BUCKETS + MOST_RUNS * PROGRAM_ROOM as usize;

/// The words of a list that holds them.
pub const PIECE_LIST: usize = PIECE * PIECES;

fn tied() -> [usize; 2]
    ensures { result ≡ most-pieces ∷ piece-list ∷ [] }
{
    [PIECES, PIECE_LIST]
}

/// What a host lends of a screen's attributes, to be read.
#[derive(Clone, Copy)]
pub struct Tables<'a> {
    pub paint_attrs: &'a [u32],
    pub layer_attrs: &'a [u32],
    pub opacities: &'a [f32],
    pub filter_paints: &'a [i32],
}

// The alpha index that a piece's tag says it has.
fn alpha_of(tag: u32, index: u32) -> Option<u32>
    ensures { result ≡ alpha-of tag index }
{
    matches!(tag, 2 | 4).then_some(index)
}

// p for a paint, l for a layer.
fn letter(tag: u32) -> u8
    ensures { result ≡ letter-of tag }
{
    if tag <= 2 { b'p' } else { b'l' }
}

// The piece at place k of a list.
fn print_piece(out: &mut Out<'_>, list: &[u32], k: usize, panels: bool)
    requires { piece-size * k + piece-size ≤ length list.now }
    ensures { Writes (detail-bytes panels (piece-at list.now k)) out.old out.new }
{
    let i = PIECE * k;
    let tag = list[i];
    out.byte(letter(tag));
    out.number(list[i + 1]);
    out.number(list[i + 2]);
    out.number(list[i + 3]);
    out.alpha(alpha_of(tag, list[i + 4]));
    out.number(list[i + 5]);
    print_panel(out, list[i + 6], panels);
    out.byte(b'\n');
}

/// The first n pieces of a list, a line each.
pub fn print_pieces(out: &mut Out<'_>, list: &[u32], n: usize, panels: bool)
    requires { piece-size * n ≤ length list.now }
    ensures { Writes (details-text panels (pieces-at list.now n)) out.old out.new }
{
    for k in 0..n {
        print_piece(out, list, k, panels);
    }
}

// A row's number, and how many pieces it gave.
fn print_painted(out: &mut Out<'_>, row: u32, n: u32)
    ensures { Writes (detail-bytes false (painted row n)) out.old out.new }
{
    out.text(b"painted");
    out.number(row);
    out.text(b" pieces");
    out.number(n);
    out.byte(b'\n');
}

// A row with its first pieces.
#[derive(Clone, Copy)]
struct PiecesText<'a> {
    row: u32,
    list: &'a [u32],
    pieces: usize,
    panels: bool,
}

impl Print for PiecesText<'_> {
    ghost printed = { λ r. details-text r.panels (row-lines r.row r.list.now r.pieces) };

    ghost ready = { λ r. (piece-size * r.pieces ≤ length r.list.now) × (r.pieces ≤ 65536) };

    fn print(&self, out: &mut Out<'_>) {
        print_painted(out, self.row, self.pieces as u32);
        print_pieces(out, self.list, self.pieces, self.panels);
    }
}

// The lines of a painted row, given its first n pieces, and how many bytes they have.
fn write_pieces(
    row: u32,
    list: &[u32],
    n: usize,
    panels: bool,
    out: &mut [u8],
) -> Result<usize, Refusal>
    requires { piece-size * n ≤ length list.now }
    ensures { left result out.new ≡ pieces-written panels row list.now n out.old }
{
    if 65536 < n {
        return Err(Refusal::NoRoom);
    }
    let text = PiecesText {
        row,
        list,
        pieces: n,
        panels,
    };
    try_print_first(&text, PIECE_LINE * (1 + n), out)
}

// The refusal of the step that a row stands at: it is tried with no list.
fn refused_at(
    screen: Screen,
    row: usize,
    stored: &Stored<'_>,
    canvas: &mut Canvas<'_>,
) -> Result<usize, Refusal>
    ensures same { SameCanvas canvas.old canvas.new }
    ensures stopped { stopped_in (listing_of result) canvas.new ≡ stopped screen row (row_attrs stored.now) (row_lent stored.now canvas.old []) }
{
    paint_step(screen, row, stored, canvas, &mut [])?;
    Ok(0)
}

/// The text of a row, and how many bytes it has: it is painted to its end, its pieces in the list and as lines. The screen's painting has begun, and the row
/// stands at its first step, or the text is of the steps that are left. Refused as its steps are, and by 14 for more than 65,536 pieces or too few bytes.
pub fn row_text(
    screen: Screen,
    row: u32,
    panels: bool,
    stored: &Stored<'_>,
    canvas: &mut Canvas<'_>,
    list: &mut [u32],
    out: &mut [u8],
) -> Result<usize, Refusal>
    ensures same { SameCanvas canvas.old canvas.new }
    ensures dumped { row_in (listing_of result) canvas.new list.new out.new
        ≡ row-dumped panels screen row (row_attrs stored.now) (row_lent stored.now canvas.old list.old) out.old }
{
    let done = paint_row(screen, row as usize, stored, canvas, list)?;
    if !done.finished {
        return refused_at(screen, row as usize, stored, canvas);
    }
    write_pieces(row, list, done.pieces, panels, out)
}

// Answer 4: counts within their limits, tables of their lengths.
fn is_good_tables(screen: Screen, tables: &Tables<'_>) -> bool
    ensures { result ≡ good-tables screen (tables_of tables.now) }
{
    screen.paint_attrs <= MOST_ATTRS
        && screen.layer_attrs <= MOST_ATTRS
        && screen.filter_paints <= MOST_FILTERS
        && tables.paint_attrs.len() == PAINT_TABLE
        && tables.layer_attrs.len() == LAYER_TABLE
        && tables.opacities.len() == OPACITIES
        && tables.filter_paints.len() == FILTER_TABLE
}

// What the text of a screen's attributes has at most.
fn attrs_room(screen: Screen) -> usize
    requires { (screen.paint_attrs ≤ most-attrs) × (screen.layer_attrs ≤ most-attrs) × (screen.filter_paints ≤ most-filters) }
    ensures { result ≡ attrs-room screen }
{
    let paints = screen.paint_attrs as usize;
    let layers = screen.layer_attrs as usize;
    let filters = screen.filter_paints as usize;
    DETAIL * (3 + (paints + (layers + filters)))
}

// The attributes and filter paints of a screen.
#[derive(Clone, Copy)]
struct AttrsText<'a> {
    screen: Screen,
    panels: bool,
    tables: Tables<'a>,
}

impl Print for AttrsText<'_> {
    ghost printed = { λ a. attrs-text a.panels a.screen (tables_of a.tables) };

    ghost ready = { λ a. good-tables a.screen (tables_of a.tables) ≡ true };

    fn print(&self, out: &mut Out<'_>) {
        let screen = self.screen;
        let tables = self.tables;
        print_paint_attrs(out, tables.paint_attrs, screen.paint_attrs, self.panels);
        print_layer_attrs(
            out,
            tables.layer_attrs,
            tables.opacities,
            screen.layer_attrs,
            self.panels,
        );
        print_filter_paints(out, tables.filter_paints, screen.filter_paints);
    }
}

/// The text of a screen's attributes and filter paints, and how many bytes it has; 4 for counts past their limits or tables of other lengths, 14 for too few
/// bytes.
pub fn attrs_text(
    screen: Screen,
    panels: bool,
    tables: &Tables<'_>,
    out: &mut [u8],
) -> Result<usize, Refusal>
    ensures { left result out.new ≡ attrs-dumped panels screen (tables_of tables.now) out.old }
{
    if !is_good_tables(screen, tables) {
        return Err(Refusal::BadRecord);
    }
    let text = AttrsText {
        screen,
        panels,
        tables: *tables,
    };
    try_print_first(&text, attrs_room(screen), out)
}
