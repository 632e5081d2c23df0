//! Beginning to paint.
ghost use Rattle.std.specs.Prelude.{◌≡◌};
ghost use Rattle.sizes.specs.Refusals.{answer_number};
ghost use Rattle.rules.specs.Answers.{answer};
ghost use Rattle.paint.specs.Beginning.{beginning};
ghost use Rattle.paint.specs.Named.{SameCanvas, begun_of};

use crate::canvas::judge::judge_begin;
use crate::canvas::stored::Canvas;
use screen::Screen;
use screen::lent::blank_depth;
use sizes::answers::Refusal;

/// Clears the depth words, makes their minima afresh, and sets every row to its first step, at nesting 0. BadViewport, BadArena, BadRecord, or Open, 13, with a
/// layer open: refused, the screen and every word stay.
#[tactic(auto, unfolding(crate::specs::Beginning::beginning))]
pub fn begin_painting(screen: &mut Screen, canvas: &mut Canvas<'_>) -> Result<(), Refusal>
    ensures same { SameCanvas canvas.old canvas.new }
    ensures begun { answer (answer_number result) (begun_of screen.new canvas.new) ≡ beginning (begun_of screen.old canvas.old) }
{
    judge_begin(
        *screen,
        canvas.depth.words.len(),
        canvas.depth.minima.len(),
        canvas.painting.len(),
    )?;
    blank_depth(&mut canvas.depth, screen.rows(), screen.buckets());
    canvas.painting.fill(0);
    screen.painting = true;
    Ok(())
}
