//! A tile's list without rows, the plain engine: a recording is gone through in draw order, and what the tile receives is read off the lines that were told of
//! it. `list_tile` is a public call; the others are parts of it.
ghost use Rattle.std.specs.Prelude.{◌≡◌, ◌+◌, ◌-◌, ◌*◌, ◌≤◌, ◌<◌, cond, map, length, leb, eqb, OnErr};
ghost use Rattle.sizes.specs.Sizes.{most-attrs, line-size, tile-end};
ghost use Rattle.rules.specs.Lists.{such};
ghost use Rattle.rect.specs.Rects.{mode_of};
ghost use Rattle.file.specs.Held.{file_of};
ghost use Rattle.cmd.specs.Pieces.{words_of, piece-words};
ghost use Rattle.tile.specs.Places.{line_of, spot-at};
ghost use Rattle.tile.specs.Standings.{standing_number};
ghost use Rattle.tile.specs.Listed.{lines-from, was-told, listed-lines, entry_of, entries-read, piece-of, entries-laid, list-told, listed-as, listed-over, in-room, room-in};

use crate::call::{is_off_screen, tell_spot};
use crate::steps::Spot;
use crate::steps::lines::{Line, Standing, line_at};
use cmd::piece::{PieceWords, tag_of};
use file::{File, Recording};
use rect::{Mode, Rect};
use sizes::answers::Refusal;
use sizes::width::Width;
use sizes::{LINE_TABLE, PIECE};

// What of some lines is listed: those that are told from line `from` on, so many.
#[derive(Clone, Copy, Debug, PartialEq, Eq)]
struct Listing {
    from: usize,
    count: usize,
}

impl Listing {
    // One more line, line i, which stands so.
    fn with_line(self, i: usize, standing: Standing) -> Listing
        requires { self.count < most-attrs + most-attrs }
        ensures from { result.from ≡ cond (eqb (standing_number standing) 4) i self.from }
        ensures count { result.count ≡ cond (eqb (standing_number standing) 4) 0 self.count + cond (leb 3 (standing_number standing)) 1 0 }
    {
        let mut next = self;
        if standing.is_hiding() {
            next = Listing { from: i, count: 0 };
        }
        if standing.is_told() {
            next.count += 1;
        }
        next
    }
}

// Of the first n lines: from the newest that hides on.
fn listing_of(lines: &[u32], n: usize) -> Listing
    requires few { n ≤ most-attrs + most-attrs }
    requires lines { line-size * n ≤ length lines.now }
    ensures from { result.from ≤ n }
    ensures listed { such was-told (lines-from lines.now result.from (n - result.from)) ≡ listed-lines (lines-from lines.now 0 n) }
    ensures count { result.count ≡ length (listed-lines (lines-from lines.now 0 n)) }
{
    let mut listing = Listing { from: 0, count: 0 };
    for i in 0..n {
        listing = listing.with_line(i, line_at(lines, i).standing);
    }
    listing
}

// The entry that a line tells, as a piece of the tile alone.
fn piece_of(line: Line, tile: u32) -> PieceWords
    requires { tile < tile-end }
    ensures { words_of result ≡ piece-words (piece-of tile (entry_of (line_of line))) }
{
    PieceWords {
        tag: tag_of(line.layer, line.alpha),
        attrs_idx: line.attribute,
        first: tile,
        end: tile + 1,
        alpha: line.alpha.unwrap_or(0),
        nesting: line.nesting,
        panel: line.panel,
    }
}

// The entries of the lines from `from` to n that are told, oldest first, at the list's start.
fn put_entries(lines: &[u32], from: usize, n: usize, tile: u32, list: &mut [u32])
    requires few { n ≤ most-attrs + most-attrs }
    requires order { from ≤ n }
    requires lines { line-size * n ≤ length lines.now }
    requires tile { tile < tile-end }
    requires room { length (such was-told (lines-from lines.now from (n - from))) ≤ room-in list.old }
    ensures { list.new ≡ entries-laid tile (map entry_of (such was-told (lines-from lines.now from (n - from)))) list.old }
{
    let mut k = 0;
    for i in from..n {
        let line = line_at(lines, i);
        if line.standing.is_told() {
            piece_of(line, tile).put(list, k);
            k += 1;
        }
    }
}

// The tile's list, of the first n lines, put at the list's start; how many entries. NoRoom, 14, with nothing written, where the list has room for fewer.
fn put_list(lines: &[u32], n: usize, tile: u32, list: &mut [u32]) -> Result<usize, Refusal>
    requires few { n ≤ most-attrs + most-attrs }
    requires lines { line-size * n ≤ length lines.now }
    requires tile { tile < tile-end }
    ensures listed { listed-as result list.new ≡ listed-over tile (in-room (room-in list.old) (entries-read lines.now n)) list.old }
    ensures refused { OnErr result (list.new ≡ list.old) }
{
    let listing = listing_of(lines, n);
    if list.len() / PIECE < listing.count {
        return Err(Refusal::NoRoom);
    }
    put_entries(lines, listing.from, n, tile, list);
    Ok(listing.count)
}

// The spot that is told of: the tile, or off the screen the first one, since a step's refusals do not go by the tile.
fn spot_of(viewport: Rect, width: Width, row: u32, tile: u32, off: bool) -> Spot
    ensures { result ≡ spot-at viewport width (cond off 0 row) (cond off 0 tile) }
{
    let (row, tile) = if off { (0, 0) } else { (row, tile) };
    Spot {
        viewport,
        row,
        tile,
        width: width.tiles(),
    }
}

/// What a tile of a recording receives, with no row, no bucket and no table: the entries stand at the list's start, oldest first, PIECE words each as a piece
/// of that tile alone, and the words after them stay; it gives how many there are. The viewport is read in the mode, and `width` says how wide a bucket is.
/// Refused, in this order: 3; 2 for the viewport; 4 and 5 for the records; the walk's first refused step, by 6, 8 or 9; 12 for a row or a tile off the screen;
/// 14 where the list has room for fewer entries. No row is full here, so that a recording that 10 or 11 refuses elsewhere may be listed, or be refused by a
/// later step. Refused, every word of the list is as it was.
pub fn list_tile(
    file: File<'_>,
    mode: Mode,
    width: Width,
    row: u32,
    tile: u32,
    list: &mut [u32],
) -> Result<usize, Refusal>
    ensures listed { listed-as result list.new
        ≡ listed-over tile (list-told (mode_of mode) width (file_of file.entry) row tile (room-in list.old)) list.old }
    ensures refused { OnErr result (list.new ≡ list.old) }
{
    let file = Recording::read(file)?;
    let viewport = file.viewport().viewport_in(mode)?;
    file.judge()?;
    let off = is_off_screen(viewport, row, tile);
    let mut lines = [0u32; LINE_TABLE];
    let tale = tell_spot(&file, spot_of(viewport, width, row, tile, off), &mut lines)?;
    if off {
        return Err(Refusal::BadRun);
    }
    put_list(&lines, (tale.paints + tale.layers) as usize, tile, list)
}
