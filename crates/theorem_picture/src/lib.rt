//! Theorems about the calls on a screen's words: they are the rules' calls, the picture, `can_skip`, recordings. What a function here
//! promises is a theorem, and it does nothing else.
#![tactic(auto)]

ghost use Rattle.std.specs.Prelude.{List};
ghost use Rattle.rules.specs.Plans.{Frame, Step};
ghost use Rattle.screen.specs.Tables.{ScreenLent};
ghost use Rattle.paint.specs.OwnRow.{OwnIsRow, Beside};
ghost use Rattle.rules_picture.specs.Colours as colours;
ghost use Rattle.rules_picture.specs.StoredColours.{SameStored, WordNewest};
ghost use Rattle.rules_picture.specs.Turns as rules;
ghost use Rattle.rules_picture.specs.Skip.{Skipped-visible};
ghost use Rattle.theorem_picture.specs.Reached.{AloneReached, Reached};
ghost use Rattle.theorem_picture.specs.Picture.{Picture};
ghost use Rattle.theorem_picture.specs.Colours.{RecordingSame, SamePicture, WordAt};
ghost use Rattle.theorem_picture.specs.Rows.{PictureByRows};
ghost use Rattle.theorem_picture.specs.Skip.{Clear, FinishedFills, SkippedBuckets, SkippedRuns};
ghost use Rattle.theorem_picture.specs.Alone.{AllShown, FinishedAlone, RowPicture, SaidFinished};
ghost use Rattle.theorem_picture.specs.Answered.{CanvasAnswered, ReachedStands, StandsAnswered};
ghost use Rattle.theorem_picture.specs.Standing.{AloneStands};
ghost use Rattle.theorem_picture.specs.Stored.{CanvasStored, StandsStored};
ghost use Rattle.theorem_picture.specs.Summed.{ReachedHidden, ReachedSummed};
ghost use Rattle.theorem_picture.specs.Said.{CallsSaid, FillsReached, PropertiesGood, PushReached, RefusedKept, ShiftsFree, StepReached};
ghost use Rattle.theorem_picture.specs.Kept.{BeginKept, CompactKept, ResetKept, RowKept, StepKept, UnsetKept, UsedKept, UsedResets, VisibleKept, WriteKept};
ghost use Rattle.theorem_picture.specs.Apart.{RowApart, StepApart};
ghost use Rattle.theorem_picture.specs.Bounded.{FrameKept, RowsFew};
ghost use Rattle.theorem_picture.specs.Refined.{FilePlays, ResetRefined, RowsRefined, StepRefined, StepsAgree, TouchedOwn, WalksAgree, WholeKept};
ghost use Rattle.theorem_picture.specs.Ends.{RowReached, RowsAreSteps, RowsFinish, RulesFinish, StepsEnough, WordsFinish};
ghost use Rattle.theorem_picture.specs.ManyRows.{ManyReached, RowsAreCalls};
ghost use Rattle.theorem_picture.specs.Edited.{LineListed, LinePieces, LineWords};
ghost use Rattle.theorem_picture.specs.Recorded.{RecordingAccepted, RecordingEarly, RecordingRefused, RecordingRules, RulesPicture, RulesPlayed};

/// Whatever calls were made, the words are those of a screen that the rules have built by the same steps, and every call there answers as the
/// rules do. Each row's minima are the summary of its depth words, so that `is_hidden` tells of the words.
pub fn reached_words_are_the_rules_screen()
    ensures stands { ReachedStands }
    ensures alone { AloneReached }
    ensures alone_stands { AloneStands }
    ensures answered { StandsAnswered }
    ensures stored { StandsStored }
    ensures said { CallsSaid }
    ensures refused { RefusedKept }
    ensures steps { StepReached }
    ensures pushes { PushReached }
    ensures fills { FillsReached }
    ensures properties { PropertiesGood }
    ensures shifts { ShiftsFree }
    ensures summed { ReachedSummed }
    ensures hidden { ReachedHidden }
{}

/// What is refused alters nothing that it was lent: a reset and the calls of painting. Of the building calls the theorem above says so.
pub fn refused_calls_change_nothing()
    ensures resets { ResetKept }
    ensures used { UsedKept }
    ensures begins { BeginKept }
    ensures steps { StepKept }
    ensures rows { RowKept }
    ensures unset_runs { UnsetKept }
    ensures visible_runs { VisibleKept }
    ensures writes { WriteKept }
    ensures compacts { CompactKept }
{}

/// On the words of every screen that calls have reached, a reset of what is used leaves what a reset to the screen's frame leaves.
pub fn used_screens_are_reset()
    ensures { UsedResets }
{}

/// Painting a row leaves every other row as it was, and is painting its own words alone.
pub fn rows_are_apart()
    ensures steps { StepApart }
    ensures rows { RowApart }
    ensures own { OwnIsRow }
    ensures beside { Beside }
{}

/// Whatever its steps, a screen keeps its frame, and no row of it gives more than 65,536 pieces.
pub fn built_screens_are_bounded()
    ensures frame { FrameKept }
    ensures pieces { RowsFew }
{}

/// Below the calls: rows, steps, walks and files at the words of the rules' screens, and every call at the words of a canvas.
pub fn words_follow_the_rules()
    ensures rows { RowsRefined }
    ensures touched { TouchedOwn }
    ensures step { StepRefined }
    ensures resets { ResetRefined }
    ensures steps { StepsAgree }
    ensures walks { WalksAgree }
    ensures files { FilePlays }
    ensures recordings { RecordingRules }
    ensures canvases { CanvasAnswered }
    ensures stored { CanvasStored }
    ensures whole { WholeKept }
{}

/// What each tile receives: by the rules, by painting steps on the words, and with rows that are painted by one call among them.
pub fn each_tile_receives_draw_order()
    ensures by_rules { rules.Picture }
    ensures by_words { Picture }
    ensures by_rows { PictureByRows }
    ensures alone { RowPicture }
    ensures finished { FinishedAlone }
    ensures said { SaidFinished }
    ensures unhidden { AllShown }
{}

/// What each tile comes to, whatever the colours are: by the rules, with touched rows and without; by what is stored for its row; by painting steps
/// on the words; of an accepted recording.
pub fn each_tile_comes_to_draw_order<B>()
    ensures by_touched { colours.SameTouched B }
    ensures by_rules { colours.SamePicture B }
    ensures stored { SameStored B }
    ensures newest { WordNewest }
    ensures by_words { SamePicture B }
    ensures word { WordAt }
    ensures recorded { RecordingSame B }
{}

/// Every row can be painted to its end, a row's call is painting steps, and a call for rows is calls for each.
pub fn painting_ends()
    ensures by_rules { RulesFinish }
    ensures by_steps { StepsEnough }
    ensures by_words { WordsFinish }
    ensures by_rows { RowsFinish }
    ensures turns { RowsAreSteps }
    ensures reached { RowReached }
    ensures many { RowsAreCalls }
    ensures many_reached { ManyReached }
{}

/// Where `can_skip` says yes, nothing of the span is hidden.
pub fn skip_hides_nothing()
    ensures by_rules { Skipped-visible }
    ensures by_words { (f : Frame) (xs : List Step) (l : ScreenLent) → Reached f xs l → Clear l }
    ensures buckets { SkippedBuckets }
    ensures runs { SkippedRuns }
    ensures fills { FinishedFills }
{}

/// What a recording leaves, accepted or refused.
pub fn recordings_leave_their_steps()
    ensures by_rules { RulesPlayed }
    ensures picture { RulesPicture }
    ensures accepted { RecordingAccepted }
    ensures refused { RecordingRefused }
    ensures early { RecordingEarly }
{}

/// Editing one line of the screen leaves the other rows as they were.
pub fn lines_stay()
    ensures words { LineWords }
    ensures pieces { LinePieces }
    ensures listed { LineListed }
{}
