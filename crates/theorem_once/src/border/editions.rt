//! The calls that convert a recording's file.
ghost use Rattle.std.specs.Prelude.{◌≡◌};
ghost use Rattle.theorem_once.specs.Border.{conversion-words, conversion-left};

use crate::Twice;
use host::editions::{coarse_to_edition_one, coarse_to_edition_two};

/// Two calls of `coarse_to_edition_two`.
pub fn to_two_twice(
    a_file: &[u32],
    a_out: &mut [u32],
    a_words: &mut usize,
    b_file: &[u32],
    b_out: &mut [u32],
    b_words: &mut usize,
    mode: u32,
) -> Twice<u32>
    ensures { conversion-words a_file.now a_out.old a_words.old ≡ conversion-words b_file.now b_out.old b_words.old
        → (result.0 ≡ result.1) × (conversion-left a_out.new a_words.new ≡ conversion-left b_out.new b_words.new) }
{
    (
        coarse_to_edition_two(a_file, mode, a_out, a_words),
        coarse_to_edition_two(b_file, mode, b_out, b_words),
    )
}

/// Two calls of `coarse_to_edition_one`.
pub fn to_one_twice(
    a_file: &[u32],
    a_out: &mut [u32],
    a_words: &mut usize,
    b_file: &[u32],
    b_out: &mut [u32],
    b_words: &mut usize,
    mode: u32,
) -> Twice<u32>
    ensures { conversion-words a_file.now a_out.old a_words.old ≡ conversion-words b_file.now b_out.old b_words.old
        → (result.0 ≡ result.1) × (conversion-left a_out.new a_words.new ≡ conversion-left b_out.new b_words.new) }
{
    (
        coarse_to_edition_one(a_file, mode, a_out, a_words),
        coarse_to_edition_one(b_file, mode, b_out, b_words),
    )
}
