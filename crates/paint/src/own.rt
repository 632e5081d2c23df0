//! A row painted on its own words alone: rows that are painted side by side share no word that is written. `paint_own_row` is a public call: it has no
//! `requires`.
ghost use Rattle.std.specs.Prelude.{◌≡◌};
ghost use Rattle.paint.specs.Answers.{painted_of};
ghost use Rattle.paint.specs.Named.{SameCanvas, step_out, row_attrs, row_lent};
ghost use Rattle.paint.specs.OwnRow.{own-row-painted, OwnIsRow, Beside};

use crate::canvas::judge::judge_own;
use crate::canvas::{Canvas, Stepped, Stored};
use crate::whole::{MOST_STEPS, row_part};
use screen::Screen;
use sizes::answers::Refusal;

/// `paint_row` of a row of the screen whose own words are all that is lent: its record, C render commands and D depth fills, the tables of attributes whole; a
/// depth word for each bucket, the minima above them, and two painting words. No number of a row is asked for. Refused, every word staying: BadViewport;
/// BadArena for C, D, or another number of commands, depth fills, depth words or minima than a row has; BadRecord for another number of other words, or numbers
/// that are no screen's; Open. Then as the row's first step is, by BadRecord or NoRoom.
pub fn paint_own_row(
    screen: Screen,
    stored: &Stored<'_>,
    canvas: &mut Canvas<'_>,
    list: &mut [u32],
) -> Result<Stepped, Refusal>
    ensures same { SameCanvas canvas.old canvas.new }
    ensures painted { step_out (painted_of result) canvas.new list.new
        ≡ own-row-painted screen (row_attrs stored.now) (row_lent stored.now canvas.old list.old) }
{
    judge_own(
        screen,
        stored,
        canvas.depth.words.len(),
        canvas.depth.minima.len(),
        canvas.painting.len(),
    )?;
    let b = screen.buckets();
    row_part(screen, b, 0, stored, canvas, list, MOST_STEPS)
}

/// What a row painted on its own words is: the call for that row, its words put back in their place; and no other row's call changes them. The function does
/// nothing, and nothing calls it.
pub fn own_row_is_row()
    ensures row { OwnIsRow }
    ensures beside { Beside }
{}
