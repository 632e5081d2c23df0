//! A pop (rules 9 and 10; bucketer.rs, pop_layer): judged, then done, or refused with nothing changed. `pop_layer` is a public call; the others are parts of
//! it: where one asks something, its callers have judged it. `judge` has the tests, `rows` those of rows, `close` what is done to rows.
#![tactic(auto)]

ghost use Rattle.std.specs.Prelude.{◌≡◌, cond, ◌-◌, ◌≤◌, ◌<◌, length, eqb, OnOk, OnErr};
ghost use Rattle.sizes.specs.Sizes.{most-layers, most-attrs, open-layer-table, opacity-count, layer-attr-table};
ghost use Rattle.row.specs.Rows.{all-held, SameRows};
ghost use Rattle.screen.specs.LentLayers.{SameLayers};
ghost use Rattle.sizes.specs.Refusals.{answer_number};
ghost use Rattle.screen.specs.Layers.{open_at};
ghost use Rattle.pop.specs.Pop.{out, number, after, popped, Judged, closing-puts, words-after, attr_by, tables_after, Closes};
ghost use Rattle.layers.specs.Band.{screen_rows};
ghost use Rattle.pop.specs.Named.{closed_by, pop_lent_of, tables_of, standing, IsKnown, KnownGood};

use crate::close::{close_segments, close_spans, pop_rows};
use crate::judge::{Closing, Known, judge_pop};
use cmd::attrs::{LayerFillAttrs, put_layer_attrs};
use row::Rows;
use screen::Screen;
use screen::layers::{Layers, OpenLayer};
use sizes::answers::Refusal;

pub mod close;
pub mod judge;
pub mod rows;

// Rule 9: the closing LayerFills.
#[inline(always)]
fn close_rows(
    screen: Screen,
    rows: &mut Rows<'_>,
    layers: &Layers<'_>,
    closing: &Closing,
    list: &[u32],
)
    requires judged { Judged screen layers.now.table.now list.now (all-held rows.old) }
    requires closing { Closes screen layers.now.table.now closing.now }
    ensures same { SameRows rows.old rows.new }
    ensures rows { screen_rows screen rows.new
        ≡ closed_by screen (closing-puts screen layers.now.table.now list.now (all-held rows.old))
        (screen_rows screen rows.old) }
{
    match closing.clip {
        None => close_spans(screen, rows, &closing.band, closing.layer.bbox.bbox_span()),
        Some(clip) => close_segments(screen, rows, list, clip, &closing.band),
    }
}

// Rules 9 and 10: the closing LayerFills, then the PopBufs.
#[inline(always)]
fn do_rows(
    screen: Screen,
    rows: &mut Rows<'_>,
    layers: &Layers<'_>,
    closing: &Closing,
    list: &[u32],
)
    requires judged { Judged screen layers.now.table.now list.now (all-held rows.old) }
    requires closing { Closes screen layers.now.table.now closing.now }
    ensures same { SameRows rows.old rows.new }
    ensures rows { all-held rows.new
        ≡ words-after screen layers.now.table.now list.now (all-held rows.old) }
{
    close_rows(screen, rows, layers, closing, list);
    pop_rows(screen, rows, &closing.band);
}

// A clip's thread, 0 without one.
fn thread_of(layer: OpenLayer) -> u32
    ensures { result ≡ cond (eqb layer.flag 0) 0 layer.thread }
{
    if layer.flag == 0 { 0 } else { layer.thread }
}

// Rule 9: the attribute of the innermost layer, whose opacity is given. The panel is the layer's own.
fn attr_of(screen: Screen, layer: OpenLayer, opacity: f32) -> LayerFillAttrs
    ensures { result ≡ attr_by screen layer opacity }
{
    LayerFillAttrs {
        blend: layer.blend,
        opacity,
        nan: layer.nan,
        mask: layer.mask,
        draw_id: screen.next_draw_id,
        thread_idx: thread_of(layer),
        panel: layer.panel,
    }
}

// The layer's attribute is stored, with its opacity; then nothing stands in the layer's place.
#[inline(always)]
fn do_tables(screen: Screen, layers: &mut Layers<'_>, layer: OpenLayer, layer_attrs: &mut [u32])
    requires layer { layer ≡ open_at layers.old.table.now (screen.layers - 1) }
    requires table { length layers.old.table.now ≡ open-layer-table }
    requires opacities { length layers.old.opacities.now ≡ opacity-count }
    requires attrs { length layer_attrs.old ≡ layer-attr-table }
    requires some { 1 ≤ screen.layers }
    requires deep { screen.layers ≤ most-layers }
    requires room { screen.layer_attrs < most-attrs }
    ensures same { SameLayers layers.old layers.new }
    ensures tables { tables_of layers.new layer_attrs.new
        ≡ tables_after screen (tables_of layers.old layer_attrs.old) }
{
    let k = screen.layers - 1;
    let attrs = attr_of(screen, layer, layers.opacities[k as usize]);
    put_layer_attrs(
        layer_attrs,
        layers.opacities,
        screen.layer_attrs as usize,
        attrs,
    );
    layers.drop_at(k);
}

// A pop, told which segments of the list have been judged.
#[inline(always)]
fn pop_told(
    screen: &mut Screen,
    rows: &mut Rows<'_>,
    layers: &mut Layers<'_>,
    layer_attrs: &mut [u32],
    list: &[u32],
    known: Option<Known>,
) -> Result<(), Refusal>
    requires known { KnownGood list.now known }
    ensures same_rows { SameRows rows.old rows.new }
    ensures same_layers { SameLayers layers.old layers.new }
    ensures popped { out (answer_number result) screen.new (pop_lent_of rows.new layers.new layer_attrs.new)
        ≡ popped screen.old (pop_lent_of rows.old layers.old layer_attrs.old) list.now }
    ensures refused { answer_number result ≡ number screen.old (pop_lent_of rows.old layers.old layer_attrs.old) list.now }
    ensures unchanged { OnErr result (standing screen.new (pop_lent_of rows.new layers.new layer_attrs.new)
        ≡ standing screen.old (pop_lent_of rows.old layers.old layer_attrs.old)) }
    ensures done { OnOk result (standing screen.new (pop_lent_of rows.new layers.new layer_attrs.new)
        ≡ after screen.old (pop_lent_of rows.old layers.old layer_attrs.old) list.now) }
{
    // Rows by value: behind a reference their slices are loaded again for each segment.
    let mut own = Rows {
        state: rows.state,
        render_cmds: rows.render_cmds,
        depth_cmds: rows.depth_cmds,
    };
    let closing = judge_pop(*screen, &own, layers, layer_attrs, list, known)?;
    do_rows(*screen, &mut own, layers, &closing, list);
    do_tables(*screen, layers, closing.layer, layer_attrs);
    screen.close_layer(closing.parent);
    Ok(())
}

/// `pop_layer`, refused as it is, where a range of the list's segments is known to be good and in order: if it is the clip's own, these are not judged again,
/// unless a row may be full.
#[inline(never)]
pub fn pop_known(
    screen: &mut Screen,
    rows: &mut Rows<'_>,
    layers: &mut Layers<'_>,
    layer_attrs: &mut [u32],
    list: &[u32],
    known: Known,
) -> Result<(), Refusal>
    requires { IsKnown list.now known }
    ensures same_rows { SameRows rows.old rows.new }
    ensures same_layers { SameLayers layers.old layers.new }
    ensures popped { out (answer_number result) screen.new (pop_lent_of rows.new layers.new layer_attrs.new)
        ≡ popped screen.old (pop_lent_of rows.old layers.old layer_attrs.old) list.now }
    ensures refused { answer_number result ≡ number screen.old (pop_lent_of rows.old layers.old layer_attrs.old) list.now }
    ensures unchanged { OnErr result (standing screen.new (pop_lent_of rows.new layers.new layer_attrs.new)
        ≡ standing screen.old (pop_lent_of rows.old layers.old layer_attrs.old)) }
    ensures done { OnOk result (standing screen.new (pop_lent_of rows.new layers.new layer_attrs.new)
        ≡ after screen.old (pop_lent_of rows.old layers.old layer_attrs.old) list.now) }
{
    pop_told(screen, rows, layers, layer_attrs, list, Some(known))
}

/// Rules 9 and 10: the innermost layer closes. The list has the segments of its clip, five words each. BadViewport, BadArena, BadRecord, BadOrder, NoLayer,
/// Ids, FullAttrs or FullRow: refused, the screen and every lent word stay.
#[inline(never)]
pub fn pop_layer(
    screen: &mut Screen,
    rows: &mut Rows<'_>,
    layers: &mut Layers<'_>,
    layer_attrs: &mut [u32],
    list: &[u32],
) -> Result<(), Refusal>
    ensures same_rows { SameRows rows.old rows.new }
    ensures same_layers { SameLayers layers.old layers.new }
    ensures popped { out (answer_number result) screen.new (pop_lent_of rows.new layers.new layer_attrs.new)
        ≡ popped screen.old (pop_lent_of rows.old layers.old layer_attrs.old) list.now }
    ensures refused { answer_number result ≡ number screen.old (pop_lent_of rows.old layers.old layer_attrs.old) list.now }
    ensures unchanged { OnErr result (standing screen.new (pop_lent_of rows.new layers.new layer_attrs.new)
        ≡ standing screen.old (pop_lent_of rows.old layers.old layer_attrs.old)) }
    ensures done { OnOk result (standing screen.new (pop_lent_of rows.new layers.new layer_attrs.new)
        ≡ after screen.old (pop_lent_of rows.old layers.old layer_attrs.old) list.now) }
{
    pop_told(screen, rows, layers, layer_attrs, list, None)
}
