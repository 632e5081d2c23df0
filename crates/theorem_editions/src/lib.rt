//! Theorems about the calls that convert recordings, and about those that take what was converted. What a function here promises is a theorem, and it does
//! nothing else.
#![tactic(auto)]

ghost use Rattle.theorem_editions.specs.Conversions.{TwoAndBack, OneAndBack};
ghost use Rattle.theorem_editions.specs.Recordings.{SameCall, SameReason};

/// What one of the calls has put the other makes what it was, in any mode in which it does.
pub fn calls_go_back()
    ensures two { TwoAndBack }
    ensures one { OneAndBack }
{}

/// The recording call and `why` do the same with a converted file.
pub fn converted_files_are_played_alike()
    ensures call { SameCall }
    ensures reason { SameReason }
{}
