//! The building steps of a recording, called from its records: the fills of a run of draws, a push, a pop, a filter layer. Parts: callers have read the
//! form and judged the records. Paints and segments are parts of the file's words, handed on. Each step refuses as the call that it makes.
ghost use Rattle.std.specs.Prelude.{ℕ, List, true, ◌≡◌, ◌≤◌, length};
ghost use Rattle.sizes.specs.Refusals.{answer_number};
ghost use Rattle.rules.specs.Answers.{answer};
ghost use Rattle.rules.specs.Inputs.{Props};
ghost use Rattle.rules.specs.Plans.{a-push, a-pop};
ghost use Rattle.rules.specs.Walk.{walk-filter};
ghost use Rattle.screen.specs.Tables.{ScreenLent};
ghost use Rattle.screen.specs.Lent.{whole, SameLent};
ghost use Rattle.inputs.specs.Inputs.{filter-of};
ghost use Rattle.file.specs.Records.{layer-of};
ghost use Rattle.file.specs.Held.{held, FitsIn};
ghost use Rattle.layers.specs.Filter.{given, given_of};
ghost use Rattle.walk.specs.Ready.{JudgedIn, IsLayer};
ghost use Rattle.rules.specs.Recording as rules;
ghost use Rattle.rules.specs.Recording.{good-records, good-order};
ghost use Rattle.segments.specs.Segs.{segs-of};
ghost use Rattle.pop.specs.Named.{IsKnown};
ghost use Rattle.walk.specs.Reading.{props_in};
ghost use Rattle.walk.specs.Steps.{filter_in, call_at, filter_step, draws-walked};

use crate::read::{needs_buffer, to_props};
use file::{Layer, Recording};
use fill::list::{Draws, fill_known};
use inputs::Filter;
use layers::{FilterFill, filter_fill, push_layer};
use pop::judge::Known;
use pop::pop_known;
use row::Rows;
use screen::layers::{LayerProps, Layers};
use screen::{Lent, Screen};
use sizes::answers::Refusal;

// What a filter layer draws, in a recording of so many paints.
fn to_filter(filter: Filter, paints: usize, panel: u32) -> FilterFill
    requires { paints ≤ 4294967295 }
    ensures { given_of result ≡ given (filter_in (filter-of filter)) paints panel }
{
    FilterFill {
        filter,
        paint_count: paints as u32,
        panel,
    }
}

/// The fills of draws a to b, in order, up to the first that is refused.
pub fn walk_draws(
    screen: &mut Screen,
    file: &Recording<'_>,
    a: usize,
    b: usize,
    lent: &mut Lent<'_>,
) -> Result<(), Refusal>
    requires ready { JudgedIn file.now }
    requires order { a ≤ b }
    requires ends { b ≤ length (held file.now).draws }
    ensures same { SameLent lent.old lent.new }
    ensures walked { answer (answer_number result) (whole screen.new lent.new)
        ≡ draws-walked (held file.now) a b (whole screen.old lent.old) }
{
    let mut rows = Rows {
        state: lent.rows,
        render_cmds: lent.render_cmds,
        depth_cmds: lent.depth_cmds,
    };
    let draws = Draws {
        words: file.draws(),
        start: a,
        end: b,
    };
    let done = fill_known(
        screen,
        &mut rows,
        lent.paint_attrs,
        file.paints(),
        file.segments(),
        draws,
        file.edition(),
    );
    match done {
        Ok(()) => Ok(()),
        Err(stopped) => Err(stopped.refusal),
    }
}

/// A push of what a layer says.
pub fn push_at(screen: &mut Screen, props: LayerProps, lent: &mut Lent<'_>) -> Result<(), Refusal>
    ensures same { SameLent lent.old lent.new }
    ensures pushed { (p : Props) → props ≡ props_in p → answer (answer_number result) (whole screen.new lent.new)
        ≡ call_at (a-push p) (whole screen.old lent.old) }
{
    let mut rows = Rows {
        state: lent.rows,
        render_cmds: lent.render_cmds,
        depth_cmds: lent.depth_cmds,
    };
    let mut layers = Layers {
        table: lent.layers,
        opacities: lent.opacities,
    };
    push_layer(screen, &mut rows, &mut layers, props)
}

// The segments of a layer's clip, which a judged recording has in order; none without a clip.
fn clip_segments(layer: Layer) -> Known
    ensures { (r : rules.Recording) (ws : List ℕ) → good-records r ≡ true → good-order r ≡ true → IsLayer r layer → segs-of ws ≡ r.segments → IsKnown ws result }
{
    if layer.flag != 1 {
        return Known { start: 0, end: 0 };
    }
    Known {
        start: layer.clip.start as usize,
        end: layer.clip.end as usize,
    }
}

/// A pop, lent the file's segments for the clip of the layer, which it has in order: where that is what was pushed, it is not judged again.
pub fn pop_at(
    screen: &mut Screen,
    file: &Recording<'_>,
    layer: Layer,
    lent: &mut Lent<'_>,
) -> Result<(), Refusal>
    requires ready { JudgedIn file.now }
    requires layer { IsLayer (held file.now) layer }
    ensures same { SameLent lent.old lent.new }
    ensures popped { answer (answer_number result) (whole screen.new lent.new)
        ≡ call_at (a-pop (held file.now).segments) (whole screen.old lent.old) }
{
    let mut rows = Rows {
        state: lent.rows,
        render_cmds: lent.render_cmds,
        depth_cmds: lent.depth_cmds,
    };
    let mut layers = Layers {
        table: lent.layers,
        opacities: lent.opacities,
    };
    pop_known(
        screen,
        &mut rows,
        &mut layers,
        lent.layer_attrs,
        file.segments(),
        clip_segments(layer),
    )
}

// The filter fill of a layer.
fn fill_filter(
    screen: &mut Screen,
    file: &Recording<'_>,
    layer: Layer,
    lent: &mut Lent<'_>,
) -> Result<(), Refusal>
    requires { FitsIn file.now }
    ensures same { SameLent lent.old lent.new }
    ensures filtered { answer (answer_number result) (whole screen.new lent.new)
        ≡ filter_step (held file.now) (layer-of layer) (whole screen.old lent.old) }
{
    let mut rows = Rows {
        state: lent.rows,
        render_cmds: lent.render_cmds,
        depth_cmds: lent.depth_cmds,
    };
    filter_fill(
        screen,
        &mut rows,
        lent.paint_attrs,
        lent.filter_paints,
        to_filter(layer.filter, file.paint_count(), layer.panel),
    )
}

/// Rule 2: a filter layer. Its nodes are not walked; it is pushed and popped around its filter fill only if it needs a buffer.
pub fn walk_filter(
    screen: &mut Screen,
    file: &Recording<'_>,
    layer: Layer,
    lent: &mut Lent<'_>,
) -> Result<(), Refusal>
    requires ready { JudgedIn file.now }
    requires layer { IsLayer (held file.now) layer }
    ensures same { SameLent lent.old lent.new }
    ensures walked { answer (answer_number result) (whole screen.new lent.new)
        ≡ walk-filter ScreenLent call_at (held file.now) (layer-of layer) (whole screen.old lent.old) }
{
    let props = to_props(layer);
    if !needs_buffer(props) {
        return fill_filter(screen, file, layer, lent);
    }
    push_at(screen, props, lent)?;
    fill_filter(screen, file, layer, lent)?;
    pop_at(screen, file, layer, lent)
}
