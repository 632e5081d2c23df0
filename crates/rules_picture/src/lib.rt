//! The picture as definitions: what a tile receives in plain draw order, and what a newer solid segment takes away. What a function here promises is a
//! theorem about the rules, and it does nothing else.
#![tactic(auto)]

ghost use Rattle.rules_picture.specs.ColourScenes.{AllNeeded, TwoScenes, WrongRows};
ghost use Rattle.rules_picture.specs.Compacted.{Compacted-balanced, Compacted-colours, Compacted-gives, Compacted-newest, Compacted-picture, Compacted-same, Compacted-skip, Compacted-stored, Compacted-touched, Less-room, Removals, Room-kept, Twice-called, Twice-once};
ghost use Rattle.rules_picture.specs.Edited.{Line-edited, Line-listed, Line-painted, Row-unchanged};
ghost use Rattle.rules_picture.specs.EditedPairs.{EditedPairs};
ghost use Rattle.rules_picture.specs.Minima.{Summary-long, Hidden-exact, Mended-afresh, Pieces-same};
ghost use Rattle.rules_picture.specs.Panels.{Answered-alike, Built-alike, Panel-blind, Painted-alike, Told-alike};
ghost use Rattle.rules_picture.specs.Pixels.{LogGentle, LogHides, PixelsGentle, PixelsHide};
ghost use Rattle.rules_picture.specs.Places.{AttributesPlaced};
ghost use Rattle.rules_picture.specs.Roomless.{Roomless-done};
ghost use Rattle.rules_picture.specs.TwoPanels.{TwoPanels};

/// Who draws decides nothing.
pub fn panels_decide_nothing()
    ensures answered { Answered-alike }
    ensures built { Built-alike }
    ensures left { Panel-blind }
    ensures painted { Painted-alike }
    ensures told { Told-alike }
    ensures two { TwoPanels }
{}

/// Editing one line of the screen leaves the other rows as they were.
pub fn lines_stay()
    ensures histories { Row-unchanged }
    ensures listed { Line-listed }
    ensures recordings { Line-edited }
    ensures painted { Line-painted }
    ensures pairs { EditedPairs }
{}

/// What each step said of a paint or a layer stands at its place among the attributes to the end.
pub fn attributes_keep_their_places()
    ensures { AttributesPlaced }
{}

/// Pixels composited by source-over, and a log that forgets, keep both laws that are asked of colours.
pub fn pixels_and_logs_keep_the_laws()
    ensures pixels_hide { PixelsHide }
    ensures pixels_gentle { PixelsGentle }
    ensures log_hides { LogHides }
    ensures log_gentle { LogGentle }
{}

/// What colours tell apart, and that each law and each layer's own box are needed.
pub fn colours_tell_scenes_apart()
    ensures scenes { TwoScenes }
    ensures needed { AllNeeded }
    ensures rows { WrongRows }
{}

/// A recording that is accepted somewhere is walked with room for everything too, by the same steps.
pub fn accepted_walks_need_no_room()
    ensures { Roomless-done }
{}

/// The summary above a row's depth words says what they say, and after a write too; painting that asks it first gives the same pieces.
pub fn summaries_tell_the_truth()
    ensures long { Summary-long }
    ensures hidden { Hidden-exact }
    ensures afresh { Mended-afresh }
    ensures pieces { Pieces-same }
{}

/// Taking out of a row what nothing will ever show changes no picture.
pub fn compacting_changes_no_picture()
    ensures removals { Removals }
    ensures twice { Twice-once }
    ensures again { Twice-called }
    ensures same { Compacted-same }
    ensures turns { Compacted-gives }
    ensures balanced { Compacted-balanced }
    ensures room { Less-room }
    ensures kept { Room-kept }
    ensures picture { Compacted-picture }
    ensures skip { Compacted-skip }
    ensures newest { Compacted-newest }
{}

/// .. and no tile comes to anything else by it, whatever the colours are.
pub fn compacting_changes_no_colours<B>()
    ensures touched { Compacted-touched B }
    ensures colours { Compacted-colours B }
    ensures stored { Compacted-stored B }
{}
