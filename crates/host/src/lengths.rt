//! How many words a host lends.
ghost use Rattle.std.specs.Prelude.{◌≡◌, [], ◌∷◌, ◌++◌, true};
ghost use Rattle.sizes.specs.Refusals.{answer_number};
ghost use Rattle.rules.specs.Answers.{answer};
ghost use Rattle.rules.specs.Boxes.{good_viewport};
ghost use Rattle.rect.specs.Rects.{box_of};
ghost use Rattle.screen.specs.Screens.{frame, frame-of};
ghost use Rattle.host.specs.Held.{rect_of};
ghost use Rattle.host.specs.Sizes.{fixed, length-words, sizes-of, size_call};

use crate::state::{Corners, SetupWords, box_of, read_setup};
use depth::minima_room;
use rect::Rect;
use screen::{Lengths, Screen, Setup, fresh, is_good_room};
use sizes::answers::{Refusal, answer_number};
use sizes::{FILTER_TABLE, LAYER_TABLE, OPACITIES, OPEN_TABLE, PAINT_TABLE, ROW};

// The lengths of eleven tables: six that the screen decides, five that are always the same.
fn put_sizes(
    sizes: &mut Lengths,
    render_cmds: usize,
    depth_cmds: usize,
    depth: usize,
    rows: usize,
    painting: usize,
    minima: usize,
)
    ensures { length-words sizes.new ≡ (render_cmds ∷ depth_cmds ∷ depth ∷ rows ∷ painting ∷ fixed) ++ (minima ∷ []) }
{
    *sizes = Lengths {
        render_cmds,
        depth_cmds,
        depth,
        rows,
        painting,
        layers: OPEN_TABLE,
        opacities: OPACITIES,
        paint_attrs: PAINT_TABLE,
        layer_attrs: LAYER_TABLE,
        filter_paints: FILTER_TABLE,
        minima,
    };
}

// 1, or the eleven lengths for a fresh screen.
fn put_lengths_of(screen: Screen, sizes: &mut Lengths) -> Result<(), Refusal>
    requires { good_viewport (box_of screen.viewport) ≡ true }
    ensures { answer (answer_number result) (length-words sizes.new) ≡ sizes-of (frame-of screen) (length-words sizes.old) }
{
    if !is_good_room(screen.c) || !is_good_room(screen.d) {
        return Err(Refusal::BadArena);
    }
    let n = screen.rows();
    let b = screen.buckets();
    let render_cmds = n * (4 * screen.c as usize);
    let depth_cmds = n * (2 * screen.d as usize);
    put_sizes(
        sizes,
        render_cmds,
        depth_cmds,
        n * b,
        n * ROW,
        n * 2,
        n * minima_room(b),
    );
    Ok(())
}

// 2, then 1, or the eleven lengths for the frame that a reset makes.
fn put_lengths(viewport: Rect, setup: Setup, sizes: &mut Lengths) -> Result<(), Refusal>
    ensures { answer (answer_number result) (length-words sizes.new) ≡ sizes-of (frame setup viewport) (length-words sizes.old) }
{
    let seen = viewport.viewport_in(setup.mode)?;
    put_lengths_of(fresh(seen, setup.c, setup.d, setup.width), sizes)
}

/// How many words are lent for a viewport in a setup. Words that ask for no setup are refused at once, by 2 or 4; then 2 for the viewport, 1 for C or D.
#[unsafe(no_mangle)]
#[tactic(auto, using(crate::proofs::HostAsked::sizes_unasked))]
pub extern "C" fn coarse_sizes(viewport: Corners, setup: SetupWords, sizes: &mut Lengths) -> u32
    ensures { answer result (length-words sizes.new) ≡ size_call (rect_of viewport) setup (length-words sizes.old) }
{
    let asked = match read_setup(setup) {
        Ok(asked) => asked,
        Err(refusal) => return refusal.number(),
    };
    let viewport = box_of(viewport);
    answer_number(put_lengths(viewport, asked, sizes))
}
