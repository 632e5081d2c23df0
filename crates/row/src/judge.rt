//! Whether a row's record is good where a step reads it (answer 4). Parts: the steps judge what these ask.
ghost use Rattle.std.specs.Prelude.{◌≡◌, ◌≤◌, ◌<◌, length};
ghost use Rattle.sizes.specs.Sizes.{most-layers, row-size};
ghost use Rattle.row.specs.Building.{good-union, good-level, good-summary, good_row};

use cmd::command::SpanWord;
use sizes::{DEPTHS, END, FIRST, LARGEST, LAST_ID, LEVEL, LEVEL_BASE, LEVELS, RENDERS, TILE_END};

// The tag and the span word of an open buffer's union.
fn is_good_union(tag: u32, span: u32) -> bool
    ensures { result ≡ good-union tag span }
{
    if tag == 5 {
        span == 0
    } else {
        tag == 6 && SpanWord(span).is_good(TILE_END)
    }
}

// Level k's PushBuf stands on the row, and its union is good.
fn is_good_level(state: &[u32], k: u32) -> bool
    requires long { length state.now ≡ row-size }
    requires level { k ≤ most-layers }
    ensures { result ≡ good-level k state.now }
{
    let at = LEVEL_BASE + LEVEL * k as usize;
    state[at] < state[RENDERS] && is_good_union(state[at + 1], state[at + 2])
}

/// Whether the depth summary of a row's record is in order, up to tile 8,192, its id one that a draw can have taken (answer 4).
pub fn is_good_summary(state: &[u32]) -> bool
    requires { length state.now ≡ row-size }
    ensures { result ≡ good-summary state.now }
{
    state[FIRST] <= state[END] && state[END] <= TILE_END && state[LARGEST] <= LAST_ID
}

/// A row's record where a step reads it, `open` layers being open (answer 4): its counts are within C and D, its levels within the open ones, its summary and
/// its innermost level good.
#[tactic(auto, unfolding(crate::specs::Building::good_row))]
pub fn is_good_row(state: &[u32], c: u32, d: u32, open: u32) -> bool
    requires { (length state.now ≡ row-size) × («open» ≤ most-layers) }
    ensures { result ≡ good_row c d «open» state.now }
{
    let levels = state[LEVELS];
    state[RENDERS] <= c
        && state[DEPTHS] <= d
        && levels <= open
        && is_good_summary(state)
        && (levels == 0 || is_good_level(state, levels))
}
