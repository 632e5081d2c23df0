//! The call that lists what a tile of a recording receives.
ghost use Rattle.std.specs.Prelude.{◌≡◌};
ghost use Rattle.rules.specs.Answers.{answer};
ghost use Rattle.file.specs.Held.{file_of};
ghost use Rattle.host.specs.Asked.{told};
ghost use Rattle.host.specs.Held.{one};
ghost use Rattle.host.specs.TileList.{list_setup, tile_list_asked, tile_list_call};

use crate::border::refuse_setup;
use crate::editions::{put_count, read_file};
use crate::state::{SetupWords, read_setup};
use file::File;
use tile::list_tile;

// The mode and the width, as a setup with no room for a row.
fn list_setup(mode: u32, width: u32) -> SetupWords
    ensures { result ≡ list_setup mode width }
{
    SetupWords {
        c: 0,
        d: 0,
        mode,
        width,
    }
}

// The list of a file whose edition is read. Its locals take some 57 KB of the stack: it is no part of a function that returns before them, since clang spoils a
// register there where it makes room for so many after a test.
#[inline(never)]
#[tactic(auto, using(crate::proofs::TileLists::tile_list_unasked))]
fn list_asked(
    file: File<'_>,
    setup: SetupWords,
    row: u32,
    tile: u32,
    list: &mut [u32],
    entries: &mut usize,
) -> u32
    ensures { answer result (list.new, one entries.new) ≡ tile_list_asked (file_of file.entry) setup row tile list.old (one entries.old) }
{
    let setup = match read_setup(setup) {
        Ok(setup) => setup,
        Err(refusal) => return refuse_setup(file, refusal),
    };
    put_count(
        list_tile(file, setup.mode, setup.width, row, tile, list),
        entries,
    )
}

/// What a tile of a recording of an edition, 1 or 2, receives, as `list_tile`, with no state and no tables; `entries`: how many. Refused as that, by 3 too for
/// another number, and after 3 by 2 or 4 for a width or a mode that is none.
#[unsafe(no_mangle)]
#[tactic(auto, using(crate::proofs::TileLists::tile_list_untold))]
pub extern "C" fn coarse_list_tile(
    edition: u32,
    file: &[u32],
    mode: u32,
    width: u32,
    row: u32,
    tile: u32,
    list: &mut [u32],
    entries: &mut usize,
) -> u32
    ensures { answer result (list.new, one entries.new)
        ≡ tile_list_call (told edition file.now) mode width row tile list.old (one entries.old) }
{
    match read_file(edition, file) {
        Ok(file) => list_asked(file, list_setup(mode, width), row, tile, list, entries),
        Err(refusal) => refusal.number(),
    }
}
