//! Each building call, and the call that gives a row room back.
ghost use Rattle.std.specs.Prelude.{◌≡◌};
ghost use Rattle.screen.specs.Lent.{tables_in, whole};
ghost use Rattle.theorem_once.specs.Lent.{fill-words, list-words, push-words, pop-words, filter-words, compact-words};

use crate::Twice;
use compact::compact_row;
use fill::fill;
use fill::list::{Draws, Stopped, fill_list};
use inputs::Draw;
use layers::filter::{FilterFill, filter_fill};
use layers::push::push_layer;
use pop::pop_layer;
use rect::Rect;
use reuse::reset_used;
use row::Rows;
use screen::layers::{LayerProps, Layers};
use screen::{Lent, Screen, Setup, reset};
use sizes::answers::Refusal;

/// Two calls of `reset`.
pub fn reset_twice(
    a: &mut Lent<'_>,
    b: &mut Lent<'_>,
    viewport: Rect,
    setup: Setup,
) -> Twice<Result<Screen, Refusal>>
    ensures { tables_in a.old ≡ tables_in b.old
        → (result.0 ≡ result.1) × (tables_in a.new ≡ tables_in b.new) }
{
    (reset(viewport, setup, a), reset(viewport, setup, b))
}

/// What a reset of what is used reads and writes.
#[derive(Drop)]
pub struct UsedLent<'a> {
    pub screen: Screen,
    pub tables: Lent<'a>,
}

/// Two calls of `reset_used`.
pub fn reset_used_twice(a: &mut UsedLent<'_>, b: &mut UsedLent<'_>) -> Twice<Result<(), Refusal>>
    ensures { whole a.old.screen a.old.tables ≡ whole b.old.screen b.old.tables
        → (result.0 ≡ result.1) × (whole a.new.screen a.new.tables ≡ whole b.new.screen b.new.tables) }
{
    (
        reset_used(&mut a.screen, &mut a.tables),
        reset_used(&mut b.screen, &mut b.tables),
    )
}

/// What a fill reads and writes.
#[derive(Drop)]
pub struct FillLent<'a> {
    pub screen: Screen,
    pub rows: Rows<'a>,
    pub paint_attrs: &'a mut [u32],
    pub paints: &'a [u32],
    pub segments: &'a [u32],
}

/// Two calls of `fill`.
pub fn fill_twice(
    a: &mut FillLent<'_>,
    b: &mut FillLent<'_>,
    draw: Draw,
) -> Twice<Result<(), Refusal>>
    ensures { fill-words a.old ≡ fill-words b.old
        → (result.0 ≡ result.1) × (fill-words a.new ≡ fill-words b.new) }
{
    (
        fill(
            &mut a.screen,
            &mut a.rows,
            a.paint_attrs,
            a.paints,
            a.segments,
            draw,
        ),
        fill(
            &mut b.screen,
            &mut b.rows,
            b.paint_attrs,
            b.paints,
            b.segments,
            draw,
        ),
    )
}

/// Two calls of `fill_list`.
pub fn fill_list_twice(
    a: &mut FillLent<'_>,
    a_draws: Draws<'_>,
    b: &mut FillLent<'_>,
    b_draws: Draws<'_>,
) -> Twice<Result<(), Stopped>>
    ensures { list-words a.old a_draws.entry ≡ list-words b.old b_draws.entry
        → (result.0 ≡ result.1) × (fill-words a.new ≡ fill-words b.new) }
{
    (
        fill_list(
            &mut a.screen,
            &mut a.rows,
            a.paint_attrs,
            a.paints,
            a.segments,
            a_draws,
        ),
        fill_list(
            &mut b.screen,
            &mut b.rows,
            b.paint_attrs,
            b.paints,
            b.segments,
            b_draws,
        ),
    )
}

/// What a push reads and writes.
#[derive(Drop)]
pub struct PushLent<'a> {
    pub screen: Screen,
    pub rows: Rows<'a>,
    pub layers: Layers<'a>,
}

/// Two calls of `push_layer`.
pub fn push_twice(
    a: &mut PushLent<'_>,
    b: &mut PushLent<'_>,
    props: LayerProps,
) -> Twice<Result<(), Refusal>>
    ensures { push-words a.old ≡ push-words b.old
        → (result.0 ≡ result.1) × (push-words a.new ≡ push-words b.new) }
{
    (
        push_layer(&mut a.screen, &mut a.rows, &mut a.layers, props),
        push_layer(&mut b.screen, &mut b.rows, &mut b.layers, props),
    )
}

/// What a pop reads and writes.
#[derive(Drop)]
pub struct PopLent<'a> {
    pub screen: Screen,
    pub rows: Rows<'a>,
    pub layers: Layers<'a>,
    pub layer_attrs: &'a mut [u32],
    pub segments: &'a [u32],
}

/// Two calls of `pop_layer`.
pub fn pop_twice(a: &mut PopLent<'_>, b: &mut PopLent<'_>) -> Twice<Result<(), Refusal>>
    ensures { pop-words a.old ≡ pop-words b.old
        → (result.0 ≡ result.1) × (pop-words a.new ≡ pop-words b.new) }
{
    (
        pop_layer(
            &mut a.screen,
            &mut a.rows,
            &mut a.layers,
            a.layer_attrs,
            a.segments,
        ),
        pop_layer(
            &mut b.screen,
            &mut b.rows,
            &mut b.layers,
            b.layer_attrs,
            b.segments,
        ),
    )
}

/// What a filter fill reads and writes.
#[derive(Drop)]
pub struct FilterLent<'a> {
    pub screen: Screen,
    pub rows: Rows<'a>,
    pub paint_attrs: &'a mut [u32],
    pub filter_paints: &'a mut [i32],
}

/// Two calls of `filter_fill`.
pub fn filter_twice(
    a: &mut FilterLent<'_>,
    b: &mut FilterLent<'_>,
    layer: FilterFill,
) -> Twice<Result<(), Refusal>>
    ensures { filter-words a.old ≡ filter-words b.old
        → (result.0 ≡ result.1) × (filter-words a.new ≡ filter-words b.new) }
{
    (
        filter_fill(
            &mut a.screen,
            &mut a.rows,
            a.paint_attrs,
            a.filter_paints,
            layer,
        ),
        filter_fill(
            &mut b.screen,
            &mut b.rows,
            b.paint_attrs,
            b.filter_paints,
            layer,
        ),
    )
}

/// What compacting a row reads and writes.
#[derive(Drop)]
pub struct CompactLent<'a> {
    pub screen: Screen,
    pub rows: Rows<'a>,
    pub paint_attrs: &'a [u32],
    pub layer_attrs: &'a [u32],
}

/// Two calls of `compact_row`.
pub fn compact_twice(
    a: &mut CompactLent<'_>,
    b: &mut CompactLent<'_>,
    row: usize,
) -> Twice<Result<(), Refusal>>
    ensures { compact-words a.old ≡ compact-words b.old
        → (result.0 ≡ result.1) × (compact-words a.new ≡ compact-words b.new) }
{
    (
        compact_row(
            &mut a.screen,
            &mut a.rows,
            a.paint_attrs,
            a.layer_attrs,
            row,
        ),
        compact_row(
            &mut b.screen,
            &mut b.rows,
            b.paint_attrs,
            b.layer_attrs,
            row,
        ),
    )
}
