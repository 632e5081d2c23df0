//! One recording of a list: bucketed into the first words of each table, and counted.
ghost use Rattle.std.specs.Prelude.{◌≡◌, true};
ghost use Rattle.rules.specs.Answers.{Answer};
ghost use Rattle.rules.specs.Boxes.{good_viewport};
ghost use Rattle.rect.specs.Rects.{box_of};
ghost use Rattle.screen.specs.Depths.{depths};
ghost use Rattle.screen.specs.Screens.{setup-of, frame-of};
ghost use Rattle.screen.specs.Tables.{tables, ScreenLent, screen_lent};
ghost use Rattle.screen.specs.Lent.{whole, SameLent};
ghost use Rattle.file.specs.Held.{file_of};
ghost use Rattle.walk.specs.Recorded.{recorded};
ghost use Rattle.tally.specs.Counts.{figures-of, Within, screen-most};
ghost use Rattle.tally.specs.Parts.{lengths-for, no-words, needed-words, at-most};
ghost use Rattle.tally.specs.Recordings.{answered, screen-of, recorded-figures, recorded-left};

use crate::counts::Figures;
use crate::screens::screen_figures;
use depth::minima_room;
use file::{File, Recording};
use paint::Stored;
use screen::{Lengths, Lent, Screen, Setup, fresh};
use sizes::{FILTER_TABLE, LAYER_TABLE, OPACITIES, OPEN_TABLE, PAINT_TABLE, ROW};
use walk::call::bucket_recording;

// How many words of each a screen needs.
fn lengths_for(screen: Screen) -> Lengths
    requires { good_viewport (box_of screen.viewport) ≡ true }
    ensures { result ≡ lengths-for (frame-of screen) }
{
    let n = screen.rows();
    let b = screen.buckets();
    Lengths {
        render_cmds: n * (4 * screen.c as usize),
        depth_cmds: n * (2 * screen.d as usize),
        depth: n * b,
        rows: n * ROW,
        painting: n * 2,
        layers: OPEN_TABLE,
        opacities: OPACITIES,
        paint_attrs: PAINT_TABLE,
        layer_attrs: LAYER_TABLE,
        filter_paints: FILTER_TABLE,
        minima: n * minima_room(b),
    }
}

fn no_words() -> Lengths
    ensures { result ≡ no-words }
{
    Lengths {
        render_cmds: 0,
        depth_cmds: 0,
        depth: 0,
        rows: 0,
        painting: 0,
        layers: 0,
        opacities: 0,
        paint_attrs: 0,
        layer_attrs: 0,
        filter_paints: 0,
        minima: 0,
    }
}

// .. a file's screen: none where its form or its viewport is bad, and nothing is bucketed.
fn needed_words(file: File<'_>, setup: Setup) -> Lengths
    ensures { result ≡ needed-words (file_of file.entry) (setup-of setup) }
{
    let Ok(recording) = Recording::read(file) else {
        return no_words();
    };
    let Ok(viewport) = recording.viewport().viewport_in(setup.mode) else {
        return no_words();
    };
    lengths_for(fresh(viewport, setup.c, setup.d, setup.width))
}

// At most as many as there are.
fn at_most(n: Lengths, there: Lengths) -> Lengths
    ensures { result ≡ at-most n there }
{
    Lengths {
        render_cmds: n.render_cmds.min(there.render_cmds),
        depth_cmds: n.depth_cmds.min(there.depth_cmds),
        depth: n.depth.min(there.depth),
        rows: n.rows.min(there.rows),
        painting: n.painting.min(there.painting),
        layers: n.layers.min(there.layers),
        opacities: n.opacities.min(there.opacities),
        paint_attrs: n.paint_attrs.min(there.paint_attrs),
        layer_attrs: n.layer_attrs.min(there.layer_attrs),
        filter_paints: n.filter_paints.min(there.filter_paints),
        minima: n.minima.min(there.minima),
    }
}

// The figures of a screen, read off its tables.
fn lent_figures(screen: Screen, lent: &Lent<'_>) -> Figures
    ensures figures { figures-of result ≡ screen-of (whole screen lent.now) }
    ensures small { Within screen-most (figures-of result) }
{
    let stored = Stored {
        rows: lent.rows,
        render_cmds: lent.render_cmds,
        depth_cmds: lent.depth_cmds,
        paint_attrs: lent.paint_attrs,
        layer_attrs: lent.layer_attrs,
    };
    screen_figures(screen, &stored)
}

// A recording bucketed into these tables, and counted. The check covers a struct made of parts of another's slices only where they are passed one by one.
fn count_in(
    file: File<'_>,
    screen: &mut Screen,
    setup: Setup,
    render_cmds: &mut [u32],
    depth_cmds: &mut [u32],
    depth: &mut [u32],
    minima: &mut [u32],
    rows: &mut [u32],
    painting: &mut [u32],
    layers: &mut [u32],
    opacities: &mut [f32],
    paint_attrs: &mut [u32],
    layer_attrs: &mut [u32],
    filter_paints: &mut [i32],
) -> Figures
    ensures counted { (a : Answer ScreenLent)
        → a ≡ recorded (file_of file.entry) (setup-of setup) (screen_lent screen.old (tables render_cmds.old depth_cmds.old (depths depth.old minima.old)
        rows.old painting.old layers.old opacities.old paint_attrs.old layer_attrs.old filter_paints.old))
        → (figures-of result ≡ answered a)
        × (screen_lent screen.new (tables render_cmds.new depth_cmds.new (depths depth.new minima.new)
        rows.new painting.new layers.new opacities.new paint_attrs.new layer_attrs.new filter_paints.new) ≡ a.value) }
    ensures small { Within screen-most (figures-of result) }
{
    let mut own = Lent {
        render_cmds,
        depth_cmds,
        depth,
        minima,
        rows,
        painting,
        layers,
        opacities,
        paint_attrs,
        layer_attrs,
        filter_paints,
    };
    if bucket_recording(screen, file, setup, &mut own).is_err() {
        return Figures::one_refused();
    }
    lent_figures(*screen, &own)
}

/// The figures of a recording that is bucketed, as `bucket_recording` does it, into the first words of each table, as many as its screen needs; where a table
/// has fewer, all of it is handed over. Refused, it counts as that alone. The screen and those words are left as the call leaves them, the words after them
/// stay.
pub fn recording_figures(
    file: File<'_>,
    screen: &mut Screen,
    setup: Setup,
    lent: &mut Lent<'_>,
) -> Figures
    ensures same { SameLent lent.old lent.new }
    ensures figures { figures-of result ≡ recorded-figures (file_of file.entry) (setup-of setup) (whole screen.old lent.old) }
    ensures left { whole screen.new lent.new ≡ recorded-left (file_of file.entry) (setup-of setup) (whole screen.old lent.old) }
    ensures small { Within screen-most (figures-of result) }
{
    let n = at_most(needed_words(file, setup), lent.lengths());
    count_in(
        file,
        screen,
        setup,
        &mut lent.render_cmds[..n.render_cmds],
        &mut lent.depth_cmds[..n.depth_cmds],
        &mut lent.depth[..n.depth],
        &mut lent.minima[..n.minima],
        &mut lent.rows[..n.rows],
        &mut lent.painting[..n.painting],
        &mut lent.layers[..n.layers],
        &mut lent.opacities[..n.opacities],
        &mut lent.paint_attrs[..n.paint_attrs],
        &mut lent.layer_attrs[..n.layer_attrs],
        &mut lent.filter_paints[..n.filter_paints],
    )
}
