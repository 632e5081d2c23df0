//! The rules (docs/RULES.md) as definitions that compute. A function here does nothing: what it promises are cases and laws of the rules.
#![tactic(auto)]

ghost use Rattle.rules.specs.Words.{PixmapsReadBack, PixmapsWrittenBack};
ghost use Rattle.rules.specs.Snapping.{SnappedSmallest, ModesSame, ExactSnapped, FarRefused};
ghost use Rattle.rules.specs.cases.KnownPoints.{KnownPoints};
ghost use Rattle.rules.specs.cases.WorkedExample.{WorkedExample};
ghost use Rattle.rules.specs.cases.Edges.{EdgesHold};
ghost use Rattle.rules.specs.cases.Editions.{EditionsHold};
ghost use Rattle.rules.specs.cases.Conversions.{ConversionsHold};
ghost use Rattle.rules.specs.cases.Refusals.{AnswersDue, LeftAlone};
ghost use Rattle.rules.specs.cases.Minima.{SummariesHold};
ghost use Rattle.rules.specs.cases.Compacted.{CompactionsHold};

/// The rules at known points, their worked example, each answer and each bound on both sides of its edge, the summary above a row's depth words, what is
/// taken out of a crowded row, a recording file's editions, and conversions between them.
pub fn rules_hold_at_known_points()
    ensures points { KnownPoints }
    ensures worked { WorkedExample }
    ensures answers { AnswersDue }
    ensures left { LeftAlone }
    ensures edges { EdgesHold }
    ensures summaries { SummariesHold }
    ensures compactions { CompactionsHold }
    ensures editions { EditionsHold }
    ensures conversions { ConversionsHold }
{}

/// What the snapping mode makes of a box: the smallest box of tile edges around it.
pub fn snapping_takes_the_smallest_box()
    ensures smallest { SnappedSmallest }
    ensures same { ModesSame }
    ensures exact { ExactSnapped }
    ensures far { FarRefused }
{}

/// A filter layer's picture is read back from its word in a file, and the other way round.
pub fn words_keep_pixmaps()
    ensures read { PixmapsReadBack }
    ensures written { PixmapsWrittenBack }
{}
