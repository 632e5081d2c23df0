//! What `rowdump` prints of a recording, from its number and its file's bytes to the text. Parts: where a function asks something, its callers
//! have seen to it. `panels`: whether a line with a panel shows it.
#![tactic(auto)]

ghost use Rattle.std.specs.Prelude.{◌≡◌, [], ◌∷◌, ◌-◌, ◌≤◌, length, vec_len, IfOk};
ghost use Rattle.rules.specs.Boxes.{rows_of};
ghost use Rattle.rect.specs.Rects.{box_of};
ghost use Rattle.screen.specs.Screens.{setup-of};
ghost use Rattle.screen.specs.Depths.{depths};
ghost use Rattle.screen.specs.Lent.{tables_in};
ghost use Rattle.paint.specs.Painting.{words_lent};
ghost use Rattle.paint.specs.Stepping.{attributes};
ghost use Rattle.text.specs.Files.{Usual};
ghost use Rattle.text.specs.Pieces.{piece-list};
ghost use Rattle.text.specs.Listed.{left};
ghost use Rattle.text.specs.Dumped.{attrs-dumped};
ghost use Rattle.text_files.specs.Programs.{first};
ghost use Rattle.text_dump.specs.Rowdump.{recording-line, file-lines-text, rowdump-text, no-width-dump, no-edition-dump, Printed};
ghost use Rattle.text_dump.specs.Dumped.{lines-room, dump-room, part_in, PartWritten, rows-dumped, begun-dumped, details-dumped, heads, given, Ready};
ghost use Rattle.paint.specs.Named.{row_attrs, row_lent};

use depth::Depth;
use file::File;
use paint::{Canvas, Stored, begin_painting};
use screen::{Lent, Screen, Setup};
use sizes::answers::Refusal;
use sizes::edition::Edition;
use sizes::{MOST_ATTRS, MOST_FILTERS, PROGRAM_ROOM, PROGRAM_ROWS};
use std::alloc::{AllocError, Global};
use text::details::{DETAIL, PIECE_LINE};
use text::painted::{PIECE_LIST, PIECES};
use text::{
    FILE_WORDS, FileBytes, Out, Print, Tables as AttrTables, attrs_text, no_screen, print_first,
    read_file, recording_text, refuse, row_text,
};
use text_files::tables::Tables;
use text_files::{no_edition_text, no_width_text};

// What the lines of `rowlist` have at most, and what the text after the first line has.
const LIST_ROOM: usize = 64 + PROGRAM_ROWS * (64 * (1 + 2 * PROGRAM_ROOM as usize));

const LINES_ROOM: usize = LIST_ROOM
    + (DETAIL * (3 + 2 * MOST_ATTRS as usize + MOST_FILTERS as usize)
        + PROGRAM_ROWS * (PIECE_LINE * (1 + PIECES)));

/// How many bytes the longest text of a recording has.
pub const DUMP_ROOM: usize = 32 + LINES_ROOM;

fn tied() -> [usize; 2]
    ensures { result ≡ lines-room ∷ dump-room ∷ [] }
{
    [LINES_ROOM, DUMP_ROOM]
}

/// What a recording's text is made in: the tables that take its screen, the list of a row's pieces (words), the text (bytes).
#[derive(Drop)]
pub struct Desk<'a> {
    pub tables: &'a mut Tables,
    pub list: &'a mut [u32],
    pub text: &'a mut [u8],
}

/// Room for the pieces of a row.
pub fn piece_buffer(alloc: Global) -> Result<Vec<u32>, AllocError>
    ensures { IfOk result (λ list. vec_len list ≡ piece-list) }
{
    Ok(vec![in alloc; 0; PIECE_LIST]?)
}

/// Room for the longest text of a recording.
pub fn dump_buffer(alloc: Global) -> Result<Vec<u8>, AllocError>
    ensures { IfOk result (λ buffer. vec_len buffer ≡ dump-room) }
{
    Ok(vec![in alloc; 0; DUMP_ROOM]?)
}

// The line that a recording's text begins with.
#[derive(Clone, Copy)]
struct RecordingLine {
    number: u64,
}

impl Print for RecordingLine {
    ghost printed = { λ line. recording-line line.number };

    fn print(&self, out: &mut Out<'_>) {
        out.text(b"recording ");
        out.digits(self.number, 20);
        out.byte(b'\n');
    }
}

// That line, put first; how long it is.
fn put_recording(out: &mut [u8], i: u64) -> usize
    requires { 31 ≤ length out.old }
    ensures value { result ≡ length (recording-line i) }
    ensures short { result ≤ 31 }
    ensures out_after { out.new ≡ first (recording-line i) out.old }
{
    print_first(&RecordingLine { number: i }, out)
}

// A screen whose rows are shown, with what is stored of it.
#[derive(Clone, Copy)]
struct Shown<'a> {
    screen: Screen,
    stored: &'a Stored<'a>,
    panels: bool,
}

// The texts of the rows from row r to row n, one after the other, on a screen whose painting has begun.
fn rows_text(
    shown: &Shown<'_>,
    r: u32,
    n: u32,
    canvas: &mut Canvas<'_>,
    list: &mut [u32],
    out: &mut [u8],
) -> usize
    ensures out_after { part_in result canvas.new list.new out.new
        ≡ rows-dumped shown.now.panels (n - r) r shown.now.screen (row_attrs shown.now.stored.now) (row_lent shown.now.stored.now canvas.old list.old) out.old }
    ensures upper_bound { result ≤ length out.old }
{
    if n <= r {
        return 0;
    }
    let k = row_text(
        shown.screen,
        r,
        shown.panels,
        shown.stored,
        canvas,
        list,
        out,
    )
    .unwrap_or(0);
    let more = rows_text(shown, r + 1, n, canvas, list, &mut out[k..]);
    k + more
}

// The painted rows of a screen.
fn begun_text(
    screen: Screen,
    panels: bool,
    stored: &Stored<'_>,
    canvas: &mut Canvas<'_>,
    list: &mut [u32],
    out: &mut [u8],
) -> usize
    ensures out_after { part_in result canvas.new list.new out.new
        ≡ begun-dumped panels screen (rows_of (box_of screen.viewport)) (row_attrs stored.now) (row_lent stored.now canvas.old list.old) out.old }
    ensures upper_bound { result ≤ length out.old }
{
    let mut begun = screen;
    // Where it is refused the screen is as it was, and no row gives a text.
    let _ = begin_painting(&mut begun, canvas);
    let n = screen.rows() as u32;
    let shown = Shown {
        screen: begun,
        stored,
        panels,
    };
    rows_text(&shown, 0, n, canvas, list, out)
}

// The attributes of the screen in the tables.
fn heads_text(
    screen: Screen,
    panels: bool,
    lent: &Lent<'_>,
    out: &mut [u8],
) -> Result<usize, Refusal>
    ensures { left result out.new ≡ attrs-dumped panels screen (heads (tables_in lent.now)) out.old }
{
    let tables = AttrTables {
        paint_attrs: lent.paint_attrs,
        layer_attrs: lent.layer_attrs,
        opacities: lent.opacities,
        filter_paints: lent.filter_paints,
    };
    attrs_text(screen, panels, &tables, out)
}

// What is stored of a screen, as the tables lend it.
#[derive(Drop)]
struct StoredWords<'a> {
    rows: &'a mut [u32],
    render_cmds: &'a mut [u32],
    depth_cmds: &'a mut [u32],
    paint_attrs: &'a mut [u32],
    layer_attrs: &'a mut [u32],
}

// The canvas of lent words. The check covers a struct of slices made inside another only where it is given back.
fn canvas_of<'a>(words: &'a mut [u32], minima: &'a mut [u32], painting: &'a mut [u32]) -> Canvas<'a>
    ensures words { result.depth.words.now ≡ words.old }
    ensures minima { result.depth.minima.now ≡ minima.old }
    ensures painting { result.painting.now ≡ painting.old }
{
    Canvas {
        depth: Depth { words, minima },
        painting,
    }
}

// The rows of a screen, painted on a canvas of lent words.
fn painted_text(
    screen: Screen,
    panels: bool,
    own: &StoredWords<'_>,
    words: &mut [u32],
    minima: &mut [u32],
    painting: &mut [u32],
    list: &mut [u32],
    out: &mut [u8],
) -> usize
    ensures out_after { PartWritten result out.new
        (begun-dumped panels screen (rows_of (box_of screen.viewport)) (attributes own.now.paint_attrs.now own.now.layer_attrs.now)
        (words_lent own.now.rows.now own.now.render_cmds.now own.now.depth_cmds.now (depths words.old minima.old) painting.old list.old) out.old) }
    ensures upper_bound { result ≤ length out.old }
{
    let stored = Stored {
        rows: own.rows,
        render_cmds: own.render_cmds,
        depth_cmds: own.depth_cmds,
        paint_attrs: own.paint_attrs,
        layer_attrs: own.layer_attrs,
    };
    let mut canvas = canvas_of(words, minima, painting);
    begun_text(screen, panels, &stored, &mut canvas, list, out)
}

// The attributes and the painted rows of the screen in the tables.
fn screen_text(
    screen: Screen,
    panels: bool,
    lent: &mut Lent<'_>,
    list: &mut [u32],
    out: &mut [u8],
) -> usize
    ensures out_after { PartWritten result out.new
        (details-dumped panels screen (rows_of (box_of screen.viewport)) (heads (tables_in lent.old)) (given (tables_in lent.old) list.old) out.old) }
    ensures upper_bound { result ≤ length out.old }
{
    let k = heads_text(screen, panels, lent, out).unwrap_or(0);
    let own = StoredWords {
        rows: lent.rows,
        render_cmds: lent.render_cmds,
        depth_cmds: lent.depth_cmds,
        paint_attrs: lent.paint_attrs,
        layer_attrs: lent.layer_attrs,
    };
    let more = painted_text(
        screen,
        panels,
        &own,
        lent.depth,
        lent.minima,
        lent.painting,
        list,
        &mut out[k..],
    );
    k + more
}

// The text of a recording after its first line.
fn lines_text(
    bytes: &[u8],
    edition: Edition,
    setup: Setup,
    panels: bool,
    tables: &mut Tables,
    list: &mut [u32],
    out: &mut [u8],
) -> usize
    requires usual { Usual (setup-of setup) }
    requires pieces { piece-list ≡ length list.old }
    requires room { lines-room ≤ length out.old }
    ensures { Printed (file-lines-text panels edition (setup-of setup) bytes.now) out.old result out.new }
{
    let mut words = [0; FILE_WORDS];
    let size = match read_file(FileBytes { edition, bytes }, setup, &mut words) {
        Ok(size) => size,
        Err(refusal) => return refuse(refusal, no_screen(), out).bytes,
    };
    let mut lent = tables.lend(size.rows, size.buckets);
    let recording = File {
        edition,
        words: &words[..bytes.len() / 4],
    };
    let text = recording_text(recording, setup, &mut lent, out);
    let k = text.bytes;
    if text.answer.is_err() {
        return k;
    }
    let more = screen_text(text.screen, panels, &mut lent, list, &mut out[k..]);
    k + more
}

/// The text that `rowdump` prints of recording i, a file's bytes, put first; how long it is.
pub fn rowdump_text(
    i: u64,
    file: FileBytes<'_>,
    setup: Setup,
    panels: bool,
    desk: &mut Desk<'_>,
) -> usize
    requires usual { Usual (setup-of setup) }
    requires ready { Ready desk.old }
    ensures ready { Ready desk.new }
    ensures value { result ≡ length (rowdump-text panels file.entry.edition (setup-of setup) i file.entry.bytes.now) }
    ensures out_after { desk.new.text.now ≡ first (rowdump-text panels file.entry.edition (setup-of setup) i file.entry.bytes.now) desk.old.text.now }
{
    let k = put_recording(desk.text, i);
    let more = lines_text(
        file.bytes,
        file.edition,
        setup,
        panels,
        desk.tables,
        desk.list,
        &mut desk.text[k..],
    );
    k + more
}

/// What `rowdump` prints of recording i where the width asked for is none, put first; how long it is.
pub fn no_width_dump(i: u64, file: FileBytes<'_>, out: &mut [u8]) -> usize
    requires { 128 ≤ length out.old }
    ensures value { result ≡ length (no-width-dump file.entry.edition i file.entry.bytes.now) }
    ensures out_after { out.new ≡ first (no-width-dump file.entry.edition i file.entry.bytes.now) out.old }
{
    let k = put_recording(out, i);
    let more = no_width_text(file, &mut out[k..]);
    k + more
}

/// What `rowdump` prints of recording i where the edition asked for is none, put first; how long it is.
pub fn no_edition_dump(i: u64, out: &mut [u8]) -> usize
    requires { 128 ≤ length out.old }
    ensures value { result ≡ length (no-edition-dump i) }
    ensures out_after { out.new ≡ first (no-edition-dump i) out.old }
{
    let k = put_recording(out, i);
    let more = no_edition_text(&mut out[k..]);
    k + more
}
