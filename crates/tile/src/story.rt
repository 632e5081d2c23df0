//! The walk over a recording that tells the story of one tile (rule 2), in plain draw order: over a run of nodes, and over a layer, which call each other.
//! Parts: callers have read the form, judged the records and chosen a tile of the screen.
ghost use Rattle.std.specs.Prelude.{◌≡◌, true, ◌≤◌, ◌<◌, length, get_or};
ghost use Rattle.sizes.specs.Sizes.{line-table};
ghost use Rattle.sizes.specs.Refusals.{answer_number};
ghost use Rattle.rules.specs.Inputs.{Draw as RuleDraw};
ghost use Rattle.rules.specs.Boxes.{good-dest};
ghost use Rattle.rules.specs.Recording.{good-layer-rec};
ghost use Rattle.file.specs.Records.{layer-of};
ghost use Rattle.file.specs.Held.{held};
ghost use Rattle.tile.specs.Places.{Spotted, Bounded, Low};
ghost use Rattle.tile.specs.Story.{draw-told, draws-told, filter-layer-told, nodes-told, layer-told};
ghost use Rattle.tile.specs.Ready.{TaleReady, Deep};
ghost use Rattle.tile.specs.Named.{SaysOf, filter_told};

use crate::steps::{Spot, Stroke, Tale, Within, tell_fill, tell_filter, tell_pop, tell_push};
use file::{Layer, Recording};
use fill::is_eligible;
use sizes::answers::Refusal;
use walk::read::{needs_buffer, to_props};

/// What is handed along over a recording: the tile that is told of, and the file.
#[derive(Clone, Copy)]
pub struct Teller<'a> {
    pub spot: Spot,
    pub file: Recording<'a>,
}

// What draw i says of the tile.
fn tell_draw(
    tale: &mut Tale,
    teller: &Teller<'_>,
    within: Within,
    i: usize,
    lines: &mut [u32],
) -> Result<(), Refusal>
    requires ready { TaleReady teller.now.file teller.now.spot within tale.old lines.old }
    requires there { i < length (held teller.now.file).draws }
    ensures low { Low tale.new }
    ensures told { (d : RuleDraw) → SaysOf teller.now.spot within (draw-told teller.now.spot (held teller.now.file) (get_or (held teller.now.file).draws i d))
        (answer_number result) tale.old lines.old tale.new lines.new }
{
    let draw = teller.file.draw(i);
    let eligible = is_eligible(within.open, teller.file.paints(), draw);
    tell_fill(
        tale,
        teller.spot,
        within,
        teller.file.segments(),
        Stroke {
            start: draw.start,
            end: draw.end,
            eligible,
            panel: draw.panel,
        },
        lines,
    )
}

// The draws a to b, in order, up to the first that is refused.
fn tell_draws(
    tale: &mut Tale,
    teller: &Teller<'_>,
    within: Within,
    a: usize,
    b: usize,
    lines: &mut [u32],
) -> Result<(), Refusal>
    requires ready { TaleReady teller.now.file teller.now.spot within tale.old lines.old }
    requires order { a ≤ b }
    requires ends { b ≤ length (held teller.now.file).draws }
    ensures low { Low tale.new }
    ensures told { SaysOf teller.now.spot within (draws-told teller.now.spot (held teller.now.file) a b)
        (answer_number result) tale.old lines.old tale.new lines.new }
{
    for i in a..b {
        tell_draw(tale, teller, within, i, lines)?;
    }
    Ok(())
}

// The filter fill of a layer.
fn tell_picture(
    tale: &mut Tale,
    spot: Spot,
    within: Within,
    layer: Layer,
    lines: &mut [u32],
) -> Result<(), Refusal>
    requires spot { Spotted spot }
    requires within { Bounded within }
    requires counts { Low tale.old }
    requires lines { length lines.old ≡ line-table }
    requires dest { good-dest (layer-of layer).filter.dest ≡ true }
    ensures low { Low tale.new }
    ensures told { SaysOf spot within (filter_told spot (layer-of layer).filter (layer-of layer).panel)
        (answer_number result) tale.old lines.old tale.new lines.new }
{
    let filter = layer.filter;
    tell_filter(
        tale,
        spot,
        within,
        filter.dest,
        filter.pixmap,
        layer.panel,
        lines,
    )
}

// A filter layer: its nodes are not walked. It is pushed and popped only if it needs a buffer.
fn tell_filter_layer(
    tale: &mut Tale,
    teller: &Teller<'_>,
    within: Within,
    layer: Layer,
    lines: &mut [u32],
) -> Result<(), Refusal>
    requires ready { TaleReady teller.now.file teller.now.spot within tale.old lines.old }
    requires good { good-layer-rec (held teller.now.file) (layer-of layer) ≡ true }
    requires filter { layer.kind ≡ 1 }
    ensures low { Low tale.new }
    ensures told { SaysOf teller.now.spot within (filter-layer-told teller.now.spot (held teller.now.file) (layer-of layer))
        (answer_number result) tale.old lines.old tale.new lines.new }
{
    let props = to_props(layer);
    if !needs_buffer(props) {
        return tell_picture(tale, teller.spot, within, layer, lines);
    }
    let inner = tell_push(tale, teller.spot, within, props)?;
    tell_picture(tale, teller.spot, inner, layer, lines)?;
    tell_pop(
        tale,
        teller.spot,
        inner,
        within,
        props,
        teller.file.segments(),
        lines,
    )
}

/// Nodes a to b, each its draws and then its layer, up to the first step that is refused. Layers in them may be nested `depth` deep.
#[cycle(tell)]
pub fn tell_nodes(
    depth: u32,
    tale: &mut Tale,
    teller: &Teller<'_>,
    within: Within,
    a: usize,
    b: usize,
    lines: &mut [u32],
) -> Result<(), Refusal>
    requires ready { TaleReady teller.now.file teller.now.spot within tale.old lines.old }
    requires levels { Deep depth within }
    requires order { a ≤ b }
    requires ends { b ≤ length (held teller.now.file).nodes }
    ensures low { Low tale.new }
    ensures told { SaysOf teller.now.spot within (nodes-told teller.now.spot (held teller.now.file) depth a b)
        (answer_number result) tale.old lines.old tale.new lines.new }
{
    for i in a..b {
        let node = teller.file.node(i);
        let first = node.start as usize;
        let end = node.end as usize;
        tell_draws(tale, teller, within, first, end, lines)?;
        tell_layer(depth, tale, teller, within, node.layer, lines)?;
    }
    Ok(())
}

// The layer that a node names by its number + 1; 0 names none. A regular layer is pushed, its nodes walked, popped. With no depth left 16 layers
// are open, and the push is refused.
#[cycle(tell)]
fn tell_layer(
    depth: u32,
    tale: &mut Tale,
    teller: &Teller<'_>,
    within: Within,
    layer: u32,
    lines: &mut [u32],
) -> Result<(), Refusal>
    requires ready { TaleReady teller.now.file teller.now.spot within tale.old lines.old }
    requires levels { Deep depth within }
    requires named { layer ≤ length (held teller.now.file).layers }
    ensures low { Low tale.new }
    ensures told { SaysOf teller.now.spot within (layer-told teller.now.spot (held teller.now.file) depth layer)
        (answer_number result) tale.old lines.old tale.new lines.new }
{
    if layer == 0 {
        return Ok(());
    }
    let record = teller.file.layer((layer - 1) as usize);
    if record.kind != 0 {
        return tell_filter_layer(tale, teller, within, record, lines);
    }
    let props = to_props(record);
    let inner = tell_push(tale, teller.spot, within, props)?;
    let first = record.start as usize;
    let end = record.end as usize;
    tell_nodes(depth - 1, tale, teller, inner, first, end, lines)?;
    tell_pop(
        tale,
        teller.spot,
        inner,
        within,
        props,
        teller.file.segments(),
        lines,
    )
}
