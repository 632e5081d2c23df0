//! What `rowdump` prints after the lines of `rowlist`: attributes and filter paints. `panels`: whether a line with a panel shows it.
ghost use Rattle.std.specs.Prelude.{◌≡◌, false, [], ◌∷◌, ◌++◌, ◌+◌, ◌*◌, ◌≤◌, length};
ghost use Rattle.sizes.specs.Sizes.{most-layers, paint-attr-size, layer-attr-size, filter-paint-size};
ghost use Rattle.rules.specs.Lines.{number};
ghost use Rattle.text.specs.Details.{paint-attr-line, layer-attr-line};
ghost use Rattle.text.specs.Texts.{Writes};
ghost use Rattle.text.specs.Bytes.{detail-room, piece-room, panel-bytes, detail-bytes, details-text};
ghost use Rattle.text.specs.Tables.{paint-attr-at, opacity-bits, layer-attr-at, filter-at, paint-lines, layer-lines, filter-lines};

use crate::Out;
use sizes::{
    FILTER_PAINT, LAYER_ATTR, LAYER_ID, LAYER_PANEL, OPACITY_BASE, PAINT_ATTR, PAINT_ID,
    PAINT_PANEL,
};

/// How many bytes a line of the details has at most.
pub const DETAIL: usize = 112;

/// How many that of a piece or of a row has at most.
pub const PIECE_LINE: usize = 72;

fn tied() -> [usize; 2]
    ensures { result ≡ detail-room ∷ piece-room ∷ [] }
{
    [DETAIL, PIECE_LINE]
}

// A heading, and how many lines follow it.
fn print_heading(out: &mut Out<'_>, heading: &[u8], n: u32)
    ensures { Writes ((heading.now ++ number n) ++ (10 ∷ [])) out.old out.new }
{
    out.text(heading);
    out.number(n);
    out.byte(b'\n');
}

/// A space and a panel, where panels are shown.
pub fn print_panel(out: &mut Out<'_>, panel: u32, panels: bool)
    ensures { Writes (panel-bytes panels panel) out.old out.new }
{
    if panels {
        out.number(panel);
    }
}

// Paint, mix, compose, mask, id, thread, origin, panel.
fn print_paint_attr(out: &mut Out<'_>, table: &[u32], i: usize, panels: bool)
    requires { paint-attr-size * i + paint-attr-size ≤ length table.now }
    ensures { Writes (detail-bytes panels (paint-attr-line (paint-attr-at table.now i))) out.old out.new }
{
    let k = PAINT_ATTR * i;
    out.byte(b'A');
    out.number(table[k]);
    out.number(table[k + 1]);
    out.number(table[k + 2]);
    out.number(table[k + 3]);
    out.number(table[k + PAINT_ID]);
    out.number(table[k + 5]);
    out.number(table[k + 6]);
    out.number(table[k + 7]);
    print_panel(out, table[k + PAINT_PANEL], panels);
    out.byte(b'\n');
}

// The bits of an opacity; a NaN's are those kept beside it.
fn opacity_bits(opacity: f32, kept: u32) -> u32
    ensures { result ≡ opacity-bits opacity kept }
{
    if opacity != opacity {
        return kept;
    }
    f32::to_bits(opacity)
}

// Mix, compose, opacity, mask, id, thread, panel.
fn print_layer_attr(out: &mut Out<'_>, table: &[u32], opacities: &[f32], i: usize, panels: bool)
    requires words { layer-attr-size * i + layer-attr-size ≤ length table.now }
    requires opacity { most-layers + (i + 1) ≤ length opacities.now }
    ensures { Writes (detail-bytes panels (layer-attr-line (layer-attr-at table.now opacities.now i))) out.old out.new }
{
    let k = LAYER_ATTR * i;
    out.byte(b'Y');
    out.number(table[k]);
    out.number(table[k + 1]);
    out.number(opacity_bits(opacities[OPACITY_BASE + i], table[k + 5]));
    out.number(table[k + 2]);
    out.number(table[k + LAYER_ID]);
    out.number(table[k + 4]);
    print_panel(out, table[k + LAYER_PANEL], panels);
    out.byte(b'\n');
}

// Flag, pixmap, shift: no panel to show.
fn print_filter(out: &mut Out<'_>, table: &[i32], i: usize)
    requires { filter-paint-size * i + filter-paint-size ≤ length table.now }
    ensures { Writes (detail-bytes false (filter-at table.now i)) out.old out.new }
{
    let k = FILTER_PAINT * i;
    out.byte(b'F');
    out.number(table[k].unsigned_abs());
    out.number(table[k + 1].unsigned_abs());
    out.signed(table[k + 2]);
    out.signed(table[k + 3]);
    out.byte(b'\n');
}

/// The heading of n paint attributes, and their lines.
pub fn print_paint_attrs(out: &mut Out<'_>, table: &[u32], n: u32, panels: bool)
    requires { paint-attr-size * n ≤ length table.now }
    ensures { Writes (details-text panels (paint-lines table.now n)) out.old out.new }
{
    print_heading(out, b"paint attributes", n);
    for i in 0..n as usize {
        print_paint_attr(out, table, i, panels);
    }
}

/// The heading of n layer attributes, and their lines.
pub fn print_layer_attrs(out: &mut Out<'_>, table: &[u32], opacities: &[f32], n: u32, panels: bool)
    requires words { layer-attr-size * n ≤ length table.now }
    requires opacity { most-layers + n ≤ length opacities.now }
    ensures { Writes (details-text panels (layer-lines table.now opacities.now n)) out.old out.new }
{
    print_heading(out, b"layer attributes", n);
    for i in 0..n as usize {
        print_layer_attr(out, table, opacities, i, panels);
    }
}

/// The heading of n filter paints, and their lines.
pub fn print_filter_paints(out: &mut Out<'_>, table: &[i32], n: u32)
    requires { filter-paint-size * n ≤ length table.now }
    ensures { Writes (details-text false (filter-lines table.now n)) out.old out.new }
{
    print_heading(out, b"filter paints", n);
    for i in 0..n as usize {
        print_filter(out, table, i);
    }
}
