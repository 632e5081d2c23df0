//! Conversions of a recording file between its editions (docs/RULES.md, Recordings). A converted file says the same recording: the viewport's words
//! stand as they were, not snapped, paints keep their shifts, and a NaN its pattern.
#![tactic(auto)]

mod call;
mod sections;

ghost use Rattle.convert.specs.Written.{WrittenParsed, ParsedWritten};
ghost use Rattle.convert.specs.Theorems.{ExactToTwo, ExactToOne, ThereAndBack, AlwaysBack, SameRecording, SamePlayed, SameScreen};

pub use call::{to_edition_one, to_edition_two};

/// Sections and their words are the same, over any sizes of records. What this promises is a theorem, and it does nothing else.
pub fn sections_are_their_words()
    ensures written { WrittenParsed }
    ensures parsed { ParsedWritten }
{}

/// Which files are converted, that nothing is lost on the way there and back, and that the recording is the same. These too are theorems.
pub fn conversions_lose_nothing()
    ensures two { ExactToTwo }
    ensures one { ExactToOne }
    ensures back { ThereAndBack }
    ensures always { AlwaysBack }
    ensures same { SameRecording }
    ensures played { SamePlayed }
    ensures screen { SameScreen }
{}
