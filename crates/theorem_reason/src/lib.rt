//! Theorems: the reason why a tile shows what it shows is the first that holds, and the only one; a tile's list without rows is what it receives by
//! painting. What a function here promises is a theorem, and it does nothing else.
#![tactic(auto)]

ghost use Rattle.theorem_reason.specs.Reasons.{Told-exact, Reason-true, Unknown-exact, Shown-exact, Hidden-exact, Panel-true, Reason-painted};
ghost use Rattle.theorem_reason.specs.Explained.{Explained-true, Explained-painted};
ghost use Rattle.theorem_reason.specs.Lists.{List-is-plain, Recorded-roomless, List-received, List-without-room};

/// A reason is true of the recording's history, and of what the tile receives.
pub fn reasons_are_true()
    ensures told { Told-exact }
    ensures first { Reason-true }
    ensures unknown { Unknown-exact }
    ensures shown { Shown-exact }
    ensures hidden { Hidden-exact }
    ensures panel { Panel-true }
    ensures painted { Reason-painted }
{}

/// So is what the call `why` answers.
pub fn answers_are_true()
    ensures history { Explained-true }
    ensures painted { Explained-painted }
{}

/// A tile's list without rows is the rules' list, and of an accepted recording what the tile receives by painting.
pub fn lists_are_plain()
    ensures plain { List-is-plain }
    ensures roomless { Recorded-roomless }
    ensures received { List-received }
    ensures without_room { List-without-room }
{}
