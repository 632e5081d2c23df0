//! A draw as words, in a recording file and in a list that is lent. Which word is which field stands here alone. Parts: `at` is a draw's place among the words.
ghost use Rattle.std.specs.Prelude.{◌≡◌, ◌+◌, ◌≤◌, length};
ghost use Rattle.sizes.specs.Editions.{draw-size};
ghost use Rattle.inputs.specs.Draws.{panel_at, draw_at};

use crate::Draw;
use cmd::blend::Blend;
use sizes::edition::Edition;

// The panel of the draw at a place: edition one has none, and it is 0.
fn panel_at(words: &[u32], edition: Edition, at: usize) -> u32
    requires { at + draw-size edition ≤ length words.now }
    ensures { result ≡ panel_at edition words.now at }
{
    match edition {
        Edition::One => 0,
        Edition::Two => words[at + 7],
    }
}

/// The draw at a place.
pub fn draw_at(words: &[u32], edition: Edition, at: usize) -> Draw
    requires { at + draw-size edition ≤ length words.now }
    ensures { result ≡ draw_at edition words.now at }
{
    let panel = panel_at(words, edition, at);
    Draw {
        thread: words[at],
        start: words[at + 1] as usize,
        end: words[at + 2] as usize,
        paint: words[at + 3],
        blend: Blend {
            mix: words[at + 4],
            compose: words[at + 5],
        },
        mask: words[at + 6],
        panel,
    }
}
