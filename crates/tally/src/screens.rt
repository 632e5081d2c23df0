//! What the rows of a screen add to the figures.
ghost use Rattle.std.specs.Prelude.{◌≡◌, true};
ghost use Rattle.paint.specs.StoredCmds.{stored_words};
ghost use Rattle.tally.specs.Counts.{figures-of, Within, screen-most};
ghost use Rattle.tally.specs.Rows.{countable, screen-tallied, stored-attrs};

use crate::counts::Figures;
use crate::rows::row_figures;
use paint::Stored;
use paint::canvas::judge::judge_stored;
use paint::command::Attributes;
use row::part;
use screen::Screen;
use sizes::{LAYER_TABLE, PAINT_TABLE, ROW};

// Whether the screen has rows, and the words and attributes are as many as it has.
fn is_countable(screen: Screen, stored: &Stored<'_>) -> bool
    ensures { result ≡ countable screen (stored_words stored.now) (stored-attrs stored.now) }
{
    judge_stored(screen, 0, stored).is_ok()
        && stored.paint_attrs.len() == PAINT_TABLE
        && stored.layer_attrs.len() == LAYER_TABLE
}

/// The figures of a screen, read off its rows: nothing where what is stored is no screen's.
pub fn screen_figures(screen: Screen, stored: &Stored<'_>) -> Figures
    ensures figures { figures-of result ≡ screen-tallied screen (stored_words stored.now) (stored-attrs stored.now) }
    ensures small { Within screen-most (figures-of result) }
{
    let mut figures = Figures::nothing();
    if !is_countable(screen, stored) {
        return figures;
    }
    let attrs = Attributes {
        paint_attrs: stored.paint_attrs,
        paints: screen.paint_attrs,
        layer_attrs: stored.layer_attrs,
        layers: screen.layer_attrs,
    };
    let renders = 4 * screen.c as usize;
    let depths = 2 * screen.d as usize;
    let mut row: usize = 0;
    while row < screen.rows() {
        figures = figures.plus(row_figures(
            part(stored.rows, ROW, row),
            part(stored.render_cmds, renders, row),
            part(stored.depth_cmds, depths, row),
            &attrs,
            screen.buckets(),
            screen.width,
        ));
        row += 1;
    }
    figures
}
