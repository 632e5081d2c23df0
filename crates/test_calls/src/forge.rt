//! What no call does: a word of the screen's numbers, arenas or tables set to anything, and a sum of all that is there.
use crate::call::Forgery;
use crate::show::bits_of;
use crate::tables::{Table, Tables};
use rect::Rect;
use screen::Screen;

impl Forgery {
    /// Sets the word; a place that is not there sets nothing.
    pub fn run(self, screen: &mut Screen, tables: &mut Tables) {
        match self {
            Forgery::Number { place, word } => set_number(screen, place, word),
            Forgery::Word { table, place, word } => set_word(tables, table, place, word),
        }
    }
}

fn set_edge(bbox: &mut Rect, i: u32, x: u32) {
    match i {
        0 => bbox.x0 = x,
        1 => bbox.y0 = x,
        2 => bbox.x1 = x,
        _ => bbox.y1 = x,
    }
}

// Number i of a screen: the viewport's four, the clip box's four, C, D, next id, the counts of paint and layer attributes, filter
// paints and open layers, whether painting has begun. The width is set by a reset alone.
fn set_number(screen: &mut Screen, i: u32, x: u32) {
    match i {
        0..=3 => set_edge(&mut screen.viewport, i, x),
        4..=7 => set_edge(&mut screen.clip_bbox, i - 4, x),
        8 => screen.c = x,
        9 => screen.d = x,
        10 => screen.next_draw_id = x,
        11 => screen.paint_attrs = x,
        12 => screen.layer_attrs = x,
        13 => screen.filter_paints = x,
        14 => screen.layers = x,
        _ => screen.painting = x != 0,
    }
}

fn put(words: &mut [u32], at: usize, x: u32) {
    if let Some(word) = words.get_mut(at) {
        *word = x;
    }
}

// Opacities and filter paints are no u32 words, and stay.
fn set_word(tables: &mut Tables, table: Option<Table>, at: usize, x: u32) {
    match table {
        Some(Table::Render) => put(&mut tables.render_cmds, at, x),
        Some(Table::Fills) => put(&mut tables.depth_cmds, at, x),
        Some(Table::Depth) => put(&mut tables.depth, at, x),
        Some(Table::Rows) => put(&mut tables.rows, at, x),
        Some(Table::Painting) => put(&mut tables.painting, at, x),
        Some(Table::Layers) => put(&mut tables.layers, at, x),
        Some(Table::Minima) => put(&mut tables.minima, at, x),
        Some(Table::PaintAttrs) => put(&mut tables.paint_attrs, at, x),
        Some(Table::LayerAttrs) => put(&mut tables.layer_attrs, at, x),
        Some(Table::Opacities | Table::FilterPaints) | None => {}
    }
}

// A sum over words in their order: any one word that differs makes another.
fn sum(from: u32, words: &[u32]) -> u32 {
    words
        .iter()
        .fold(from, |sum, word| sum.wrapping_mul(31).wrapping_add(*word))
}

// The same over opacities, by their bits; all NaNs are one.
fn sum_opacities(from: u32, opacities: &[f32]) -> u32 {
    opacities.iter().fold(
        from,
        |sum, opacity| sum.wrapping_mul(31).wrapping_add(bits_of(*opacity, 1)),
    )
}

// The same over signed words.
fn sum_signed(from: u32, words: &[i32]) -> u32 {
    words.iter().fold(
        from,
        |sum, word| sum.wrapping_mul(31).wrapping_add(word.cast_unsigned()),
    )
}

fn sum_box(from: u32, bbox: Rect) -> u32 {
    sum(from, &[bbox.x0, bbox.y0, bbox.x1, bbox.y1])
}

fn sum_screen(screen: Screen) -> u32 {
    let boxes = sum_box(sum_box(7, screen.viewport), screen.clip_bbox);
    sum(
        boxes,
        &[
            screen.c,
            screen.d,
            screen.next_draw_id,
            screen.paint_attrs,
            screen.layer_attrs,
            screen.filter_paints,
            screen.layers,
            u32::from(screen.painting),
            screen.width.tiles(),
        ],
    )
}

/// The sum of a screen's numbers, arenas and tables.
pub fn sum_all(screen: Screen, tables: &Tables) -> u32 {
    let mut all = sum_screen(screen);
    all = sum(all, &tables.render_cmds);
    all = sum(all, &tables.depth_cmds);
    all = sum(all, &tables.depth);
    all = sum(all, &tables.minima);
    all = sum(all, &tables.rows);
    all = sum(all, &tables.painting);
    all = sum(all, &tables.layers);
    all = sum(all, &tables.paint_attrs);
    all = sum(all, &tables.layer_attrs);
    all = sum_opacities(all, &tables.opacities);
    sum_signed(all, &tables.filter_paints)
}
