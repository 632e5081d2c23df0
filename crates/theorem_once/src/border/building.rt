//! The calls of reset, of the building steps, of recordings and of questions about them.
ghost use Rattle.std.specs.Prelude.{◌≡◌};
ghost use Rattle.host.specs.Called.{fill_out, push_out, filter_out, why_out};
ghost use Rattle.host.specs.FillLists.{list_out};
ghost use Rattle.host.specs.Sizes.{length-words};
ghost use Rattle.theorem_once.specs.Border.{screen-words, recording-words, figures-words, figures-left, pop-words, pop-left, fill-words, list-words, why-words, tile-list-words, tile-list-left, compact-words, compact-left};

use crate::Twice;
use fill::list::Draws;
use host::build::{
    DrawWords, coarse_bucket_recording, coarse_fill, coarse_reset, coarse_reset_used,
};
use host::compacting::coarse_compact_row;
use host::figures::coarse_figures;
use host::layer::{
    FilterWords, PropsWords, coarse_filter_fill, coarse_pop_layer, coarse_push_layer,
};
use host::lengths::coarse_sizes;
use host::list::coarse_fill_list;
use host::reasons::{QuestionWords, ReasonWords, coarse_why};
use host::state::{Corners, SetupWords, StateWords};
use host::tile_list::coarse_list_tile;
use screen::{Lengths, Lent};

/// Two calls of `coarse_reset`.
pub fn reset_twice(
    a_state: &mut StateWords,
    a_tables: &mut Lent<'_>,
    b_state: &mut StateWords,
    b_tables: &mut Lent<'_>,
    viewport: Corners,
    setup: SetupWords,
) -> Twice<u32>
    ensures { screen-words a_state.old a_tables.old ≡ screen-words b_state.old b_tables.old
        → (result.0 ≡ result.1) × (screen-words a_state.new a_tables.new ≡ screen-words b_state.new b_tables.new) }
{
    (
        coarse_reset(a_state, viewport, setup, a_tables),
        coarse_reset(b_state, viewport, setup, b_tables),
    )
}

/// Two calls of `coarse_reset_used`.
pub fn reset_used_twice(
    a_state: &mut StateWords,
    a_tables: &mut Lent<'_>,
    b_state: &mut StateWords,
    b_tables: &mut Lent<'_>,
) -> Twice<u32>
    ensures { screen-words a_state.old a_tables.old ≡ screen-words b_state.old b_tables.old
        → (result.0 ≡ result.1) × (screen-words a_state.new a_tables.new ≡ screen-words b_state.new b_tables.new) }
{
    (
        coarse_reset_used(a_state, a_tables),
        coarse_reset_used(b_state, b_tables),
    )
}

/// What a recording reads and writes: the number of its edition and its words, beside what else is lent.
#[derive(Drop)]
pub struct RecordingHost<'a> {
    pub state: StateWords,
    pub tables: Lent<'a>,
    pub edition: u32,
    pub file: &'a [u32],
}

/// Two calls of `coarse_bucket_recording`.
pub fn recording_twice(
    a: &mut RecordingHost<'_>,
    b: &mut RecordingHost<'_>,
    setup: SetupWords,
) -> Twice<u32>
    ensures { recording-words a.old ≡ recording-words b.old
        → (result.0 ≡ result.1) × (screen-words a.new.state a.new.tables ≡ screen-words b.new.state b.new.tables) }
{
    (
        coarse_bucket_recording(&mut a.state, a.edition, a.file, setup, &mut a.tables),
        coarse_bucket_recording(&mut b.state, b.edition, b.file, setup, &mut b.tables),
    )
}

/// What counting a list of recordings reads and writes.
#[derive(Drop)]
pub struct FiguresHost<'a> {
    pub state: StateWords,
    pub tables: Lent<'a>,
    pub edition: u32,
    pub words: &'a [u32],
    pub ends: &'a [usize],
    pub table: &'a mut [u64],
}

/// Two calls of `coarse_figures`.
pub fn figures_twice(
    a: &mut FiguresHost<'_>,
    b: &mut FiguresHost<'_>,
    setup: SetupWords,
) -> Twice<u32>
    ensures { figures-words a.old ≡ figures-words b.old
        → (result.0 ≡ result.1) × (figures-left a.new ≡ figures-left b.new) }
{
    (
        coarse_figures(
            &mut a.state,
            a.edition,
            a.words,
            a.ends,
            setup,
            &mut a.tables,
            a.table,
        ),
        coarse_figures(
            &mut b.state,
            b.edition,
            b.words,
            b.ends,
            setup,
            &mut b.tables,
            b.table,
        ),
    )
}

/// What a question reads and writes.
#[derive(Drop)]
pub struct WhyHost<'a> {
    pub state: StateWords,
    pub tables: Lent<'a>,
    pub edition: u32,
    pub file: &'a [u32],
    pub reason: ReasonWords,
}

/// Two calls of `coarse_why`.
pub fn why_twice(
    a: &mut WhyHost<'_>,
    b: &mut WhyHost<'_>,
    setup: SetupWords,
    question: QuestionWords,
) -> Twice<u32>
    ensures { why-words a.old ≡ why-words b.old
        → (result.0 ≡ result.1) × (why_out a.new.state a.new.tables a.new.reason ≡ why_out b.new.state b.new.tables b.new.reason) }
{
    (
        coarse_why(
            &mut a.state,
            a.edition,
            a.file,
            setup,
            &question,
            &mut a.tables,
            &mut a.reason,
        ),
        coarse_why(
            &mut b.state,
            b.edition,
            b.file,
            setup,
            &question,
            &mut b.tables,
            &mut b.reason,
        ),
    )
}

/// What a tile's list reads and writes.
#[derive(Drop)]
pub struct TileListHost<'a> {
    pub edition: u32,
    pub file: &'a [u32],
    pub list: &'a mut [u32],
    pub entries: usize,
}

/// Two calls of `coarse_list_tile`.
pub fn list_tile_twice(
    a: &mut TileListHost<'_>,
    b: &mut TileListHost<'_>,
    mode: u32,
    width: u32,
    row: u32,
    tile: u32,
) -> Twice<u32>
    ensures { tile-list-words a.old ≡ tile-list-words b.old
        → (result.0 ≡ result.1) × (tile-list-left a.new ≡ tile-list-left b.new) }
{
    (
        coarse_list_tile(
            a.edition,
            a.file,
            mode,
            width,
            row,
            tile,
            a.list,
            &mut a.entries,
        ),
        coarse_list_tile(
            b.edition,
            b.file,
            mode,
            width,
            row,
            tile,
            b.list,
            &mut b.entries,
        ),
    )
}

/// What a fill reads and writes.
#[derive(Drop)]
pub struct FillHost<'a> {
    pub state: StateWords,
    pub tables: Lent<'a>,
    pub paints: &'a [u32],
    pub segments: &'a [u32],
}

/// Two calls of `coarse_fill`.
pub fn fill_twice(a: &mut FillHost<'_>, b: &mut FillHost<'_>, draw: DrawWords) -> Twice<u32>
    ensures { fill-words a.old ≡ fill-words b.old
        → (result.0 ≡ result.1) × (fill_out a.new.state a.new.tables ≡ fill_out b.new.state b.new.tables) }
{
    (
        coarse_fill(&mut a.state, &mut a.tables, a.paints, a.segments, &draw),
        coarse_fill(&mut b.state, &mut b.tables, b.paints, b.segments, &draw),
    )
}

/// Two calls of `coarse_fill_list`.
pub fn fill_list_twice(
    a: &mut FillHost<'_>,
    a_draws: &Draws<'_>,
    a_done: &mut usize,
    b: &mut FillHost<'_>,
    b_draws: &Draws<'_>,
    b_done: &mut usize,
) -> Twice<u32>
    ensures { list-words a.old a_draws.now ≡ list-words b.old b_draws.now
        → (result.0 ≡ result.1) × (list_out a.new.state a.new.tables a_done.new ≡ list_out b.new.state b.new.tables b_done.new) }
{
    (
        coarse_fill_list(
            &mut a.state,
            &mut a.tables,
            a.paints,
            a.segments,
            a_draws,
            a_done,
        ),
        coarse_fill_list(
            &mut b.state,
            &mut b.tables,
            b.paints,
            b.segments,
            b_draws,
            b_done,
        ),
    )
}

/// Two calls of `coarse_push_layer`.
pub fn push_twice(
    a_state: &mut StateWords,
    a_tables: &mut Lent<'_>,
    b_state: &mut StateWords,
    b_tables: &mut Lent<'_>,
    props: PropsWords,
) -> Twice<u32>
    ensures { push_out a_state.old a_tables.old ≡ push_out b_state.old b_tables.old
        → (result.0 ≡ result.1) × (push_out a_state.new a_tables.new ≡ push_out b_state.new b_tables.new) }
{
    (
        coarse_push_layer(a_state, a_tables, &props),
        coarse_push_layer(b_state, b_tables, &props),
    )
}

/// Two calls of `coarse_pop_layer`.
pub fn pop_twice(
    a_state: &mut StateWords,
    a_tables: &mut Lent<'_>,
    a_segments: &[u32],
    b_state: &mut StateWords,
    b_tables: &mut Lent<'_>,
    b_segments: &[u32],
) -> Twice<u32>
    ensures { pop-words a_segments.now a_state.old a_tables.old ≡ pop-words b_segments.now b_state.old b_tables.old
        → (result.0 ≡ result.1) × (pop-left a_state.new a_tables.new ≡ pop-left b_state.new b_tables.new) }
{
    (
        coarse_pop_layer(a_state, a_tables, a_segments),
        coarse_pop_layer(b_state, b_tables, b_segments),
    )
}

/// Two calls of `coarse_filter_fill`.
pub fn filter_twice(
    a_state: &mut StateWords,
    a_tables: &mut Lent<'_>,
    b_state: &mut StateWords,
    b_tables: &mut Lent<'_>,
    filter: FilterWords,
) -> Twice<u32>
    ensures { filter_out a_state.old a_tables.old ≡ filter_out b_state.old b_tables.old
        → (result.0 ≡ result.1) × (filter_out a_state.new a_tables.new ≡ filter_out b_state.new b_tables.new) }
{
    (
        coarse_filter_fill(a_state, a_tables, &filter),
        coarse_filter_fill(b_state, b_tables, &filter),
    )
}

/// Two calls of `coarse_compact_row`.
pub fn compact_twice(
    a_state: &mut StateWords,
    a_tables: &mut Lent<'_>,
    b_state: &mut StateWords,
    b_tables: &mut Lent<'_>,
    row: usize,
) -> Twice<u32>
    ensures { compact-words a_state.old a_tables.old ≡ compact-words b_state.old b_tables.old
        → (result.0 ≡ result.1) × (compact-left a_state.new a_tables.new ≡ compact-left b_state.new b_tables.new) }
{
    (
        coarse_compact_row(a_state, a_tables, row),
        coarse_compact_row(b_state, b_tables, row),
    )
}

/// Two calls of `coarse_sizes`.
pub fn sizes_twice(
    a_sizes: &mut Lengths,
    b_sizes: &mut Lengths,
    viewport: Corners,
    setup: SetupWords,
) -> Twice<u32>
    ensures { length-words a_sizes.old ≡ length-words b_sizes.old
        → (result.0 ≡ result.1) × (length-words a_sizes.new ≡ length-words b_sizes.new) }
{
    (
        coarse_sizes(viewport, setup, a_sizes),
        coarse_sizes(viewport, setup, b_sizes),
    )
}
