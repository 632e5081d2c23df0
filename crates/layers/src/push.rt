//! A push (rule 8; bucketer.rs, push_layer). `push_layer` is a public call; the others are parts of it.
ghost use Rattle.std.specs.Prelude.{◌≡◌, ◌≤◌, IfOk, OnOk, OnErr};
ghost use Rattle.sizes.specs.Refusals.{answer_number};
ghost use Rattle.rules.specs.Answers.{answer};
ghost use Rattle.rect.specs.Rects.{box_of};
ghost use Rattle.row.specs.Rows.{all-held, SameRows};
ghost use Rattle.screen.specs.LentLayers.{SameLayers};
ghost use Rattle.layers.specs.Push.{touch_rows, Opens, push_lent_of, lent-number, push-number, after, pushed, OnlyLayers};

use crate::rows::{Touch, judge_rows, on_rows};
use cmd::blend::Blend;
use rect::Rect;
use row::Rows;
use screen::layers::{LayerProps, Layers, layer_box};
use screen::{Screen, judge_screen};
use sizes::answers::Refusal;
use sizes::{MOST_LAYERS, OPACITIES, OPEN_TABLE};
use std::ops::Range;

// Rule 8: the rows that a push touches at once, those of its box, if the blend is destructive and the box not empty.
#[tactic(auto, unfolding(crate::specs::Push::touch_rows))]
fn touch_rows(blend: Blend, bbox: Rect) -> Range<usize>
    ensures { result ≡ touch_rows blend.compose (box_of bbox) }
{
    if !blend.is_destructive() || bbox.is_empty() {
        return 0..0;
    }
    bbox.rows()
}

// Where a layer opens: its own box, and the rows that it touches at once.
#[derive(Drop)]
struct Opening {
    bbox: Rect,
    band: Range<usize>,
}

// What the screen and the lengths of what is lent say: BadViewport, then BadArena, then BadRecord.
fn judge_lent(screen: Screen, rows: &Rows<'_>, layers: &Layers<'_>) -> Result<(), Refusal>
    ensures { answer_number result ≡ lent-number (push_lent_of screen rows.now layers.now) }
{
    judge_screen(
        screen,
        rows.state.len(),
        rows.render_cmds.len(),
        rows.depth_cmds.len(),
    )?;
    if layers.table.len() != OPEN_TABLE || layers.opacities.len() != OPACITIES {
        return Err(Refusal::BadRecord);
    }
    Ok(())
}

// A push of what `judge_lent` has passed, before anything is done: BadRecord, then Deep with 16 layers open, then FullRow.
fn judge_push(
    screen: Screen,
    rows: &Rows<'_>,
    layers: &Layers<'_>,
    props: LayerProps,
) -> Result<Opening, Refusal>
    requires { lent-number (push_lent_of screen rows.now layers.now) ≡ 0 }
    ensures opening { IfOk result (Opens screen props) }
    ensures number { answer_number result ≡ push-number props (push_lent_of screen rows.now layers.now) }
{
    if !props.is_good() {
        return Err(Refusal::BadRecord);
    }
    let bbox = layer_box(screen.viewport, screen.clip_bbox, props.clip);
    let band = touch_rows(props.blend, bbox);
    let fault = judge_rows(screen, rows.state, &band)?;
    if MOST_LAYERS <= screen.layers {
        return Err(Refusal::Deep);
    }
    fault.answer()?;
    Ok(Opening { bbox, band })
}

/// A push of what `judge_lent` has passed.
#[inline(never)]
pub fn push_judged(
    screen: &mut Screen,
    rows: &mut Rows<'_>,
    layers: &mut Layers<'_>,
    props: LayerProps,
) -> Result<(), Refusal>
    requires { lent-number (push_lent_of screen.old rows.old layers.old) ≡ 0 }
    ensures same_rows { SameRows rows.old rows.new }
    ensures same_layers { SameLayers layers.old layers.new }
    ensures left { OnlyLayers screen.old screen.new }
    ensures pushed { answer (answer_number result) (push_lent_of screen.new rows.new layers.new) ≡ pushed props (push_lent_of screen.old rows.old layers.old) }
    ensures refused { answer_number result ≡ push-number props (push_lent_of screen.old rows.old layers.old) }
    ensures unchanged { OnErr result (push_lent_of screen.new rows.new layers.new ≡ push_lent_of screen.old rows.old layers.old) }
    ensures done { OnOk result (push_lent_of screen.new rows.new layers.new ≡ after props (push_lent_of screen.old rows.old layers.old)) }
{
    let Opening { bbox, band } = judge_push(*screen, rows, layers, props)?;
    layers.put(screen.layers, props, bbox);
    let touch = Touch {
        layers: screen.layers + 1,
    };
    on_rows(*screen, rows, &band, touch);
    screen.open_layer(bbox);
    Ok(())
}

/// Rule 8: one more layer is open. Its opacity is copied, bit for bit. BadViewport, BadArena, BadRecord, Deep or FullRow: refused, the screen and every lent
/// word stay.
pub fn push_layer(
    screen: &mut Screen,
    rows: &mut Rows<'_>,
    layers: &mut Layers<'_>,
    props: LayerProps,
) -> Result<(), Refusal>
    ensures same_rows { SameRows rows.old rows.new }
    ensures same_layers { SameLayers layers.old layers.new }
    ensures pushed { answer (answer_number result) (push_lent_of screen.new rows.new layers.new) ≡ pushed props (push_lent_of screen.old rows.old layers.old) }
    ensures refused { answer_number result ≡ push-number props (push_lent_of screen.old rows.old layers.old) }
    ensures unchanged { OnErr result (push_lent_of screen.new rows.new layers.new ≡ push_lent_of screen.old rows.old layers.old) }
    ensures done { OnOk result (push_lent_of screen.new rows.new layers.new ≡ after props (push_lent_of screen.old rows.old layers.old)) }
{
    judge_lent(*screen, rows, layers)?;
    push_judged(screen, rows, layers, props)
}
