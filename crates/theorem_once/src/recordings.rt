//! A recording, a list of recordings, `why`, a tile's list, and the conversions of a recording's file.
ghost use Rattle.std.specs.Prelude.{◌≡◌};
ghost use Rattle.file.specs.Held.{file_of};
ghost use Rattle.convert.specs.Placed.{placed};
ghost use Rattle.tile.specs.Listed.{listed-as};
ghost use Rattle.theorem_once.specs.Lent.{recording-words, figures-words, figures-left};

use crate::Twice;
use convert::{to_edition_one, to_edition_two};
use file::File;
use rect::Mode;
use screen::{Lent, Screen, Setup};
use sizes::answers::Refusal;
use sizes::width::Width;
use tally::{Recordings, figures};
use tile::{Asked, Reason, list_tile, why};
use walk::bucket_recording;

/// What a recording's call reads and writes: the screen, the file and all that a host lends with the screen.
#[derive(Drop)]
pub struct RecordingLent<'a> {
    pub screen: Screen,
    pub file: File<'a>,
    pub lent: Lent<'a>,
}

/// Two calls of `bucket_recording`.
pub fn recording_twice(
    a: &mut RecordingLent<'_>,
    b: &mut RecordingLent<'_>,
    setup: Setup,
) -> Twice<Result<(), Refusal>>
    ensures { recording-words a.old ≡ recording-words b.old
        → (result.0 ≡ result.1) × (recording-words a.new ≡ recording-words b.new) }
{
    (
        bucket_recording(&mut a.screen, a.file, setup, &mut a.lent),
        bucket_recording(&mut b.screen, b.file, setup, &mut b.lent),
    )
}

/// What counting a list of recordings reads and writes.
#[derive(Drop)]
pub struct FiguresLent<'a> {
    pub screen: Screen,
    pub list: Recordings<'a>,
    pub lent: Lent<'a>,
    pub table: &'a mut [u64],
}

/// Two calls of `figures`.
pub fn figures_twice(
    a: &mut FiguresLent<'_>,
    b: &mut FiguresLent<'_>,
    setup: Setup,
) -> Twice<Result<(), Refusal>>
    ensures { figures-words a.old ≡ figures-words b.old
        → (result.0 ≡ result.1) × (figures-left a.new ≡ figures-left b.new) }
{
    (
        figures(a.list, &mut a.screen, setup, &mut a.lent, a.table),
        figures(b.list, &mut b.screen, setup, &mut b.lent, b.table),
    )
}

/// Two calls of `why`.
pub fn why_twice(
    a: &mut RecordingLent<'_>,
    b: &mut RecordingLent<'_>,
    setup: Setup,
    row: u32,
    tile: u32,
    asked: Asked,
) -> Twice<Result<Reason, Refusal>>
    ensures { recording-words a.old ≡ recording-words b.old
        → (result.0 ≡ result.1) × (recording-words a.new ≡ recording-words b.new) }
{
    (
        why(&mut a.screen, a.file, setup, row, tile, asked, &mut a.lent),
        why(&mut b.screen, b.file, setup, row, tile, asked, &mut b.lent),
    )
}

/// What a tile's list is asked for.
#[derive(Clone, Copy)]
pub struct ListAsked {
    pub mode: Mode,
    pub width: Width,
    pub row: u32,
    pub tile: u32,
}

/// Two calls of `list_tile`: the number, how many entries, and the list.
pub fn list_tile_twice(
    a: File<'_>,
    a_list: &mut [u32],
    b: File<'_>,
    b_list: &mut [u32],
    asked: ListAsked,
) -> Twice<Result<usize, Refusal>>
    ensures { (file_of a.entry ≡ file_of b.entry) × (a_list.old ≡ b_list.old) → listed-as result.0 a_list.new ≡ listed-as result.1 b_list.new }
{
    let ListAsked {
        mode,
        width,
        row,
        tile,
    } = asked;
    (
        list_tile(a, mode, width, row, tile, a_list),
        list_tile(b, mode, width, row, tile, b_list),
    )
}

/// Two calls of `to_edition_two`: the number, how many words, and the list.
pub fn to_two_twice(
    a_file: &[u32],
    a_out: &mut [u32],
    b_file: &[u32],
    b_out: &mut [u32],
    mode: Mode,
) -> Twice<Result<usize, Refusal>>
    ensures { (a_file.now ≡ b_file.now) × (a_out.old ≡ b_out.old) → placed result.0 a_out.new ≡ placed result.1 b_out.new }
{
    (
        to_edition_two(a_file, mode, a_out),
        to_edition_two(b_file, mode, b_out),
    )
}

/// Two calls of `to_edition_one`.
pub fn to_one_twice(
    a_file: &[u32],
    a_out: &mut [u32],
    b_file: &[u32],
    b_out: &mut [u32],
    mode: Mode,
) -> Twice<Result<usize, Refusal>>
    ensures { (a_file.now ≡ b_file.now) × (a_out.old ≡ b_out.old) → placed result.0 a_out.new ≡ placed result.1 b_out.new }
{
    (
        to_edition_one(a_file, mode, a_out),
        to_edition_one(b_file, mode, b_out),
    )
}
