//! What `tilelist` prints of a file's bytes: the entries that a tile receives, each as a painted piece of that tile alone. Parts: where a function asks
//! something, its callers have seen to it.
#![tactic(auto)]

ghost use Rattle.std.specs.Prelude.{◌≡◌, ◌*◌, ◌≤◌, length, take, vec_len, IfOk};
ghost use Rattle.sizes.specs.Refusals.{number_of};
ghost use Rattle.rect.specs.Rects.{mode_of};
ghost use Rattle.rules_reason.specs.Answers.{refused-bytes};
ghost use Rattle.rules_reason.specs.TileList.{list-text, no-width-text, list-line};
ghost use Rattle.text_long.specs.Long.{long-words};
ghost use Rattle.tile.specs.Listed.{listed-as, listed-over};
ghost use Rattle.text_list.specs.Texts.{list-words, text-room, bytes-listed, no-width-told, first, Ready};

use file::File;
use rect::Mode;
use sizes::answers::Refusal;
use sizes::width::Width;
use sizes::{MOST_ATTRS, PIECE};
use std::alloc::{AllocError, Global};
use text::details::PIECE_LINE;
use text::lines::Refused;
use text::painted::print_pieces;
use text::{FileBytes, Out, Print, no_width_of, print_first};
use text_long::read_words;
use tile::list_tile;

/// As many entries as a tile can have: one for each attribute.
pub const MOST_ENTRIES: usize = MOST_ATTRS as usize + MOST_ATTRS as usize;

/// Words of a list of so many entries.
pub const LIST_WORDS: usize = PIECE * MOST_ENTRIES;

/// Bytes of the longest text.
pub const TEXT_ROOM: usize = PIECE_LINE * MOST_ENTRIES;

/// What a file is listed in: its words, and its tile's list.
#[derive(Drop)]
pub struct Lists<'a> {
    pub words: &'a mut [u32],
    pub list: &'a mut [u32],
}

/// Room for the longest list.
pub fn list_buffer(alloc: Global) -> Result<Vec<u32>, AllocError>
    ensures { IfOk result (λ buffer. vec_len buffer ≡ list-words) }
{
    Ok(vec![in alloc; 0; LIST_WORDS]?)
}

/// Room for the longest text.
pub fn text_buffer(alloc: Global) -> Result<Vec<u8>, AllocError>
    ensures { IfOk result (λ buffer. vec_len buffer ≡ text-room) }
{
    Ok(vec![in alloc; 0; TEXT_ROOM]?)
}

// The first entries of a tile's list.
#[derive(Clone, Copy)]
struct Entries<'a> {
    list: &'a [u32],
    count: usize,
}

impl Print for Entries<'_> {
    ghost use Rattle.std.specs.Prelude.{true};
    ghost use Rattle.sizes.specs.Sizes.{piece-size};
    ghost use Rattle.text.specs.Bytes.{details-text};
    ghost use Rattle.text.specs.Pieces.{pieces-at};

    ghost printed = { λ e. details-text true (pieces-at e.list.now e.count) };

    ghost ready = { λ e. piece-size * e.count ≤ length e.list.now };

    fn print(&self, out: &mut Out<'_>) {
        print_pieces(out, self.list, self.count, true);
    }
}

// What the tile receives, put at the list's start; how many entries. 3 for more than 1,048,576 bytes or no whole words, then as `list_tile`.
fn list_bytes(
    file: FileBytes<'_>,
    mode: Mode,
    width: Width,
    row: u32,
    tile: u32,
    words: &mut [u32],
    list: &mut [u32],
) -> Result<usize, Refusal>
    requires words { length words.old ≡ long-words }
    requires list { length list.old ≡ list-words }
    ensures words { length words.new ≡ long-words }
    ensures list { length list.new ≡ list-words }
    ensures value { listed-as result list.new
        ≡ listed-over tile (bytes-listed file.entry.edition (mode_of mode) width file.entry.bytes.now row tile) list.old }
{
    let n = read_words(file.bytes, words)?;
    let recording = File {
        edition: file.edition,
        words: &words[..n],
    };
    list_tile(recording, mode, width, row, tile, list)
}

/// The line of a refusal, put first; how long it is.
pub fn refused_text(refusal: Refusal, out: &mut [u8]) -> usize
    requires { 64 ≤ length out.old }
    ensures value { result ≡ length (refused-bytes (number_of refusal)) }
    ensures out_after { out.new ≡ first (refused-bytes (number_of refusal)) out.old }
{
    let line = Refused {
        number: refusal.number(),
    };
    print_first(&line, out)
}

/// The text that `tilelist` prints of a file's bytes, put first; how long it is. What stands after the text is free.
pub fn list_text(
    file: FileBytes<'_>,
    mode: Mode,
    width: Width,
    row: u32,
    tile: u32,
    lists: &mut Lists<'_>,
    out: &mut [u8],
) -> usize
    requires ready { Ready lists.old }
    requires room { text-room ≤ length out.old }
    ensures ready { Ready lists.new }
    ensures value { result ≡ length (list-text file.entry.edition (mode_of mode) width file.entry.bytes.now row tile) }
    ensures out_after { out.new ≡ first (list-text file.entry.edition (mode_of mode) width file.entry.bytes.now row tile) out.old }
{
    match list_bytes(file, mode, width, row, tile, lists.words, lists.list) {
        Ok(count) => {
            let entries = Entries {
                list: lists.list,
                count,
            };
            print_first(&entries, out)
        }
        Err(refusal) => refused_text(refusal, out),
    }
}

// How a file's bytes are refused where the width asked for is none: 3 for the bytes or their form, then 2.
fn no_width_refusal(file: FileBytes<'_>, words: &mut [u32]) -> Refusal
    requires { length words.old ≡ long-words }
    ensures words { length words.new ≡ long-words }
    ensures value { number_of result ≡ no-width-told file.entry.edition file.entry.bytes.now }
{
    match read_words(file.bytes, words) {
        Ok(n) => no_width_of(File {
            edition: file.edition,
            words: &words[..n],
        }),
        Err(refusal) => refusal,
    }
}

/// The text of a file's bytes where the width asked for is none, put first; how long it is.
pub fn no_width_text(file: FileBytes<'_>, words: &mut [u32], out: &mut [u8]) -> usize
    requires words { length words.old ≡ long-words }
    requires room { 64 ≤ length out.old }
    ensures words { length words.new ≡ long-words }
    ensures value { result ≡ length (no-width-text file.entry.edition file.entry.bytes.now) }
    ensures out_after { out.new ≡ first (no-width-text file.entry.edition file.entry.bytes.now) out.old }
{
    refused_text(no_width_refusal(file, words), out)
}

// The line before a list in a stream.
#[derive(Clone, Copy)]
struct ListLine {
    number: u64,
}

impl Print for ListLine {
    ghost printed = { λ line. list-line line.number };

    fn print(&self, out: &mut Out<'_>) {
        out.text(b"list ");
        out.digits(self.number, 20);
        out.byte(b'\n');
    }
}

/// The line before list i of a stream, put first; how long it is.
pub fn line_text(i: u64, out: &mut [u8]) -> usize
    requires { 26 ≤ length out.old }
    ensures value { result ≡ length (list-line i) }
    ensures out_after { out.new ≡ first (list-line i) out.old }
{
    print_first(&ListLine { number: i }, out)
}
