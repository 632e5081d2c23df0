//! The building steps of a sequence, and the call that gives room back.
use crate::call::{FillList, Step};
use crate::tables::Shape;
use compact::compact_row;
use fill::fill;
use fill::list::{Stopped, fill_list};
use layers::{filter_fill, push_layer};
use pop::pop_layer;
use rect::{NOWHERE, Rect};
use row::Rows;
use screen::layers::Layers;
use screen::{Lent, Screen, Setup, reset};
use sizes::answers::Refusal;
use sizes::width::Width;

// The shape of the screen that a reset asks for. Where there can be none it is lent no rows.
fn reset_shape(viewport: Rect, setup: Option<Setup>) -> Shape {
    match setup {
        Some(setup) => {
            let viewport = viewport.viewport_in(setup.mode).unwrap_or(NOWHERE);
            Shape::new(viewport, setup.c, setup.d, setup.width)
        }
        None => Shape::new(NOWHERE, 0, 0, Width::W128),
    }
}

impl Step<'_> {
    /// What it is lent: a reset what its own screen needs, another step what the screen has.
    pub fn shape(self, screen: Screen) -> Shape {
        match self {
            Step::Reset { viewport, setup } => reset_shape(viewport, setup),
            _ => Shape::of_screen(screen),
        }
    }

    /// A reset to a width that is none is refused by 2.
    pub fn run(self, screen: &mut Screen, lent: &mut Lent<'_>) -> Result<(), Refusal> {
        if let Step::Reset { viewport, setup } = self {
            *screen = reset(viewport, setup.ok_or(Refusal::BadViewport)?, lent)?;
            return Ok(());
        }
        let mut rows = Rows {
            state: lent.rows,
            render_cmds: lent.render_cmds,
            depth_cmds: lent.depth_cmds,
        };
        let mut layers = Layers {
            table: lent.layers,
            opacities: lent.opacities,
        };
        match self {
            Step::Reset { .. } => Ok(()),
            Step::Fill {
                draw,
                paints,
                segments,
            } => fill(screen, &mut rows, lent.paint_attrs, paints, segments, draw),
            Step::Push(props) => push_layer(screen, &mut rows, &mut layers, props),
            Step::Pop { segments } => {
                pop_layer(screen, &mut rows, &mut layers, lent.layer_attrs, segments)
            }
            Step::FilterFill(given) => filter_fill(
                screen,
                &mut rows,
                lent.paint_attrs,
                lent.filter_paints,
                given,
            ),
        }
    }
}

impl FillList<'_> {
    /// On the screen's own tables.
    pub fn run(self, screen: &mut Screen, lent: &mut Lent<'_>) -> Result<(), Stopped> {
        let mut rows = Rows {
            state: lent.rows,
            render_cmds: lent.render_cmds,
            depth_cmds: lent.depth_cmds,
        };
        let FillList {
            draws,
            paints,
            segments,
        } = self;
        fill_list(screen, &mut rows, lent.paint_attrs, paints, segments, draws)
    }
}

// Over the rows and both tables of attributes.
fn compact_by(
    screen: &mut Screen,
    rows: &mut Rows<'_>,
    paint_attrs: &mut [u32],
    layer_attrs: &mut [u32],
    row: usize,
) -> Result<(), Refusal> {
    compact_row(screen, rows, paint_attrs, layer_attrs, row)
}

/// Compacts a row, on the screen's own tables.
pub fn compact(screen: &mut Screen, lent: &mut Lent<'_>, row: usize) -> Result<(), Refusal> {
    let mut rows = Rows {
        state: lent.rows,
        render_cmds: lent.render_cmds,
        depth_cmds: lent.depth_cmds,
    };
    compact_by(screen, &mut rows, lent.paint_attrs, lent.layer_attrs, row)
}
