//! Arenas and tables for any screen, and how many words of each a call is lent.
ghost use Rattle.std.specs.Prelude.{◌≤◌};
ghost use Rattle.sizes.specs.Sizes.{most-room};

use depth::minima_room;
use rect::Rect;
use screen::{Lengths, Lent, Screen};
use sizes::width::Width;
use sizes::{
    FILTER_TABLE, LAYER_TABLE, MOST_ROOM, OPACITIES, OPEN_TABLE, PAINT_TABLE, PROGRAM_DEPTH, ROW,
};
use std::alloc::{AllocError, Global};

/// The tables that a call can be lent a word less of.
#[derive(Clone, Copy)]
pub enum Table {
    Render,
    Fills,
    Depth,
    Rows,
    Painting,
    Layers,
    PaintAttrs,
    LayerAttrs,
    Opacities,
    FilterPaints,
    Minima,
}

impl Table {
    /// The table of a number from 1 to 11.
    pub fn numbered(number: u32) -> Option<Table> {
        match number {
            1 => Some(Table::Render),
            2 => Some(Table::Fills),
            3 => Some(Table::Depth),
            4 => Some(Table::Rows),
            5 => Some(Table::Painting),
            6 => Some(Table::Layers),
            7 => Some(Table::PaintAttrs),
            8 => Some(Table::LayerAttrs),
            9 => Some(Table::Opacities),
            10 => Some(Table::FilterPaints),
            11 => Some(Table::Minima),
            _ => None,
        }
    }
}

/// How many rows a screen has, and how many words of an arena each row has.
#[derive(Clone, Copy)]
pub struct Shape {
    pub rows: u32,
    pub render_cmds: u32,
    pub depth_cmds: u32,
    pub depth: u32,
    pub minima: u32,
}

// Room for so many commands or depth fills, none if it is out of range.
fn room(n: u32) -> u32
    ensures { result ≤ most-room }
{
    if n <= MOST_ROOM { n } else { 0 }
}

impl Shape {
    /// What a screen of this viewport (pixels), C, D and width of a bucket asks for.
    pub fn new(viewport: Rect, c: u32, d: u32, width: Width) -> Shape {
        let buckets = width.above(viewport.width() / 4);
        Shape {
            rows: viewport.height() / 4,
            render_cmds: 4 * room(c),
            depth_cmds: 2 * room(d),
            depth: buckets,
            minima: u32::try_from(minima_room(buckets as usize)).unwrap_or(0),
        }
    }

    /// What a screen asks for.
    pub fn of_screen(screen: Screen) -> Shape {
        Shape::new(screen.viewport, screen.c, screen.d, screen.width)
    }

    /// What a screen of this shape is lent, a word less of one table.
    pub fn lengths(self, short: Option<Table>) -> Lengths {
        let rows = self.rows as usize;
        let mut lengths = Lengths {
            render_cmds: rows * self.render_cmds as usize,
            depth_cmds: rows * self.depth_cmds as usize,
            depth: rows * self.depth as usize,
            rows: rows * ROW,
            painting: rows * 2,
            layers: OPEN_TABLE,
            opacities: OPACITIES,
            paint_attrs: PAINT_TABLE,
            layer_attrs: LAYER_TABLE,
            filter_paints: FILTER_TABLE,
            minima: rows * self.minima as usize,
        };
        if let Some(table) = short {
            shorten(&mut lengths, table);
        }
        lengths
    }
}

fn shorten(lengths: &mut Lengths, table: Table) {
    match table {
        Table::Render => lengths.render_cmds = lengths.render_cmds.saturating_sub(1),
        Table::Fills => lengths.depth_cmds = lengths.depth_cmds.saturating_sub(1),
        Table::Depth => lengths.depth = lengths.depth.saturating_sub(1),
        Table::Rows => lengths.rows = lengths.rows.saturating_sub(1),
        Table::Painting => lengths.painting = lengths.painting.saturating_sub(1),
        Table::Layers => lengths.layers = lengths.layers.saturating_sub(1),
        Table::PaintAttrs => lengths.paint_attrs = lengths.paint_attrs.saturating_sub(1),
        Table::LayerAttrs => lengths.layer_attrs = lengths.layer_attrs.saturating_sub(1),
        Table::Opacities => lengths.opacities = lengths.opacities.saturating_sub(1),
        Table::FilterPaints => lengths.filter_paints = lengths.filter_paints.saturating_sub(1),
        Table::Minima => lengths.minima = lengths.minima.saturating_sub(1),
    }
}

/// Room for the largest screen of a sequence. Sequences share it: what one leaves there, another's reset clears.
#[derive(Drop)]
pub struct Tables {
    pub render_cmds: Vec<u32>,
    pub depth_cmds: Vec<u32>,
    pub depth: Vec<u32>,
    pub minima: Vec<u32>,
    pub rows: Vec<u32>,
    pub painting: Vec<u32>,
    pub layers: Vec<u32>,
    pub opacities: Vec<f32>,
    pub paint_attrs: Vec<u32>,
    pub layer_attrs: Vec<u32>,
    pub filter_paints: Vec<i32>,
}

/// The first n words of a table, as far as they are there.
pub fn first<T>(table: &mut [T], n: usize) -> &mut [T] {
    let n = n.min(table.len());
    &mut table[..n]
}

impl Tables {
    /// All of them, zeros.
    pub fn new(alloc: Global) -> Result<Tables, AllocError> {
        Ok(Tables {
            render_cmds: vec![in alloc; 0; 16384]?,
            depth_cmds: vec![in alloc; 0; 8192]?,
            depth: vec![in alloc; 0; PROGRAM_DEPTH]?,
            minima: vec![in alloc; 0; 4064]?,
            rows: vec![in alloc; 0; 32 * ROW]?,
            painting: vec![in alloc; 0; 64]?,
            layers: vec![in alloc; 0; OPEN_TABLE]?,
            opacities: vec![in alloc; 0.0; OPACITIES]?,
            paint_attrs: vec![in alloc; 0; PAINT_TABLE]?,
            layer_attrs: vec![in alloc; 0; LAYER_TABLE]?,
            filter_paints: vec![in alloc; 0; FILTER_TABLE]?,
        })
    }

    /// What a call is lent on a screen of this shape, a word less of one table.
    pub fn lend(&mut self, shape: Shape, short: Option<Table>) -> Lent<'_> {
        let n = shape.lengths(short);
        Lent {
            render_cmds: first(&mut self.render_cmds, n.render_cmds),
            depth_cmds: first(&mut self.depth_cmds, n.depth_cmds),
            depth: first(&mut self.depth, n.depth),
            minima: first(&mut self.minima, n.minima),
            rows: first(&mut self.rows, n.rows),
            painting: first(&mut self.painting, n.painting),
            layers: first(&mut self.layers, n.layers),
            opacities: first(&mut self.opacities, n.opacities),
            paint_attrs: first(&mut self.paint_attrs, n.paint_attrs),
            layer_attrs: first(&mut self.layer_attrs, n.layer_attrs),
            filter_paints: first(&mut self.filter_paints, n.filter_paints),
        }
    }
}
