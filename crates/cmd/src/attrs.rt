//! Attributes of fills (cmd.rs, PaintFillAttrs and LayerFillAttrs), and the tables that hold them, each with a fixed number of words an attribute.
ghost use Rattle.std.specs.Prelude.{◌≡◌, ◌+◌, ◌*◌, ◌<◌, length, get_or};
ghost use Rattle.sizes.specs.Sizes.{most-attrs, most-filters, handle-end, opacity-count, paint-attr-size, paint-id-at, paint-panel-at, paint-attr-table, layer-attr-size, layer-id-at, layer-panel-at, layer-attr-table, filter-paint-table};
ghost use Rattle.cmd.specs.Attrs.{put-paint, layer-tables, put-layer, put-filter};

use crate::blend::Blend;
use sizes::{
    FILTER_PAINT, LAYER_ATTR, LAYER_ID, LAYER_PANEL, OPACITY_BASE, PAINT_ATTR, PAINT_ID,
    PAINT_PANEL,
};

/// Rule 3: what the commands of one draw share. `paint` is a place of the paint list, `mask` a handle or 0 for none, the origin the viewport's, in pixels. A
/// filter fill adds one too (rule 11).
#[derive(Clone, Copy, Debug, PartialEq, Eq)]
pub struct PaintFillAttrs {
    pub paint: u32,
    pub blend: Blend,
    pub mask: u32,
    pub draw_id: u32,
    pub thread_idx: u32,
    pub origin_x: u32,
    pub origin_y: u32,
    pub panel: u32,
}

/// Rule 9: what the fills of a closing layer share. `nan` is the pattern of a NaN opacity, else 0; `thread_idx` the clip's thread, else 0.
#[derive(Clone, Copy, Debug, PartialEq)]
pub struct LayerFillAttrs {
    pub blend: Blend,
    pub opacity: f32,
    pub nan: u32,
    pub mask: u32,
    pub draw_id: u32,
    pub thread_idx: u32,
    pub panel: u32,
}

/// Rule 11: the paint of a filter fill, the handle of its picture. The shift, in pixels, is source minus destination, and may be negative.
#[derive(Clone, Copy, Debug, PartialEq, Eq)]
pub struct FilterPaint {
    pub pixmap: u32,
    pub shift_x: i32,
    pub shift_y: i32,
}

/// Stores attribute i in the table of paint attributes, nine words.
pub fn put_paint_attrs(table: &mut [u32], i: usize, a: PaintFillAttrs)
    requires { (i < most-attrs) × (length table.old ≡ paint-attr-table) }
    ensures { table.new ≡ put-paint table.old i a }
{
    let at = PAINT_ATTR * i;
    table[at] = a.paint;
    table[at + 1] = a.blend.mix;
    table[at + 2] = a.blend.compose;
    table[at + 3] = a.mask;
    table[at + PAINT_ID] = a.draw_id;
    table[at + 5] = a.thread_idx;
    table[at + 6] = a.origin_x;
    table[at + 7] = a.origin_y;
    table[at + PAINT_PANEL] = a.panel;
}

/// The id of the draw that paint attribute i belongs to.
pub fn paint_id(table: &[u32], i: usize) -> u32
    requires place { i < most-attrs }
    requires long { length table.now ≡ paint-attr-table }
    ensures { result ≡ get_or table.now (paint-attr-size * i + paint-id-at) 0 }
{
    table[PAINT_ATTR * i + PAINT_ID]
}

/// The panel of paint attribute i.
pub fn paint_panel(table: &[u32], i: usize) -> u32
    requires place { i < most-attrs }
    requires long { length table.now ≡ paint-attr-table }
    ensures { result ≡ get_or table.now (paint-attr-size * i + paint-panel-at) 0 }
{
    table[PAINT_ATTR * i + PAINT_PANEL]
}

/// Stores attribute i in the table of layer attributes, seven words, and its opacity, after those of the 16 open layers.
pub fn put_layer_attrs(table: &mut [u32], opacities: &mut [f32], i: usize, a: LayerFillAttrs)
    requires place { i < most-attrs }
    requires long { length table.old ≡ layer-attr-table }
    requires opacities_long { length opacities.old ≡ opacity-count }
    ensures { layer-tables table.new opacities.new ≡ put-layer (layer-tables table.old opacities.old) i a }
{
    let at = LAYER_ATTR * i;
    table[at] = a.blend.mix;
    table[at + 1] = a.blend.compose;
    table[at + 2] = a.mask;
    table[at + LAYER_ID] = a.draw_id;
    table[at + 4] = a.thread_idx;
    table[at + 5] = a.nan;
    table[at + LAYER_PANEL] = a.panel;
    opacities[OPACITY_BASE + i] = a.opacity;
}

/// The id of the closing layer that layer attribute i belongs to.
pub fn layer_id(table: &[u32], i: usize) -> u32
    requires place { i < most-attrs }
    requires long { length table.now ≡ layer-attr-table }
    ensures { result ≡ get_or table.now (layer-attr-size * i + layer-id-at) 0 }
{
    table[LAYER_ATTR * i + LAYER_ID]
}

/// The panel of layer attribute i.
pub fn layer_panel(table: &[u32], i: usize) -> u32
    requires place { i < most-attrs }
    requires long { length table.now ≡ layer-attr-table }
    ensures { result ≡ get_or table.now (layer-attr-size * i + layer-panel-at) 0 }
{
    table[LAYER_ATTR * i + LAYER_PANEL]
}

/// Stores filter paint i, four words, of which the first is the opaque flag, 0.
pub fn put_filter_paint(table: &mut [i32], i: usize, p: FilterPaint)
    requires { (i < most-filters) × (length table.old ≡ filter-paint-table) × (p.pixmap < handle-end) }
    ensures { table.new ≡ put-filter table.old i p }
{
    let at = FILTER_PAINT * i;
    table[at] = 0;
    table[at + 1] = p.pixmap as i32;
    table[at + 2] = p.shift_x;
    table[at + 3] = p.shift_y;
}
