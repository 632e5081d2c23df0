//! What is read of one row while it is painted, besides its depth words.
ghost use Rattle.std.specs.Prelude.{◌≡◌, ◌*◌, ◌≤◌, length};
ghost use Rattle.sizes.specs.Sizes.{most-room, most-attrs, row-size, paint-attr-table, layer-attr-table};

use sizes::width::Width;

/// The tables of attributes, and how many of each the screen has.
#[derive(Clone, Copy)]
pub struct Attributes<'a> {
    pub paint_attrs: &'a [u32],
    pub paints: u32,
    pub layer_attrs: &'a [u32],
    pub layers: u32,
    ghost paint_len: { length paint_attrs.now ≡ paint-attr-table },
    ghost paints_few: { paints ≤ most-attrs },
    ghost layer_len: { length layer_attrs.now ≡ layer-attr-table },
    ghost layers_few: { layers ≤ most-attrs },
}

/// A row's record, its render commands and its depth fills, the attributes, and how wide a bucket is.
#[derive(Clone, Copy)]
pub struct StoredRow<'a> {
    pub state: &'a [u32],
    pub render_cmds: &'a [u32],
    pub depth_cmds: &'a [u32],
    pub attrs: Attributes<'a>,
    pub width: Width,
    ghost state_len: { length state.now ≡ row-size },
    ghost render_len: { length render_cmds.now ≤ 4 * most-room },
    ghost fills_len: { length depth_cmds.now ≤ 2 * most-room },
}
