//! Theorems about the calls that a host links: the picture, `can_skip`, recordings, refusals, an example, over the state's words and the tables alone. What a
//! function here promises is a theorem, and it does nothing else.
#![tactic(auto)]

ghost use Rattle.std.specs.Prelude.{List};
ghost use Rattle.rules.specs.Plans.{Frame, Step};
ghost use Rattle.theorem_border.specs.Hosted.{AloneHosted, Host, Hosted};
ghost use Rattle.theorem_border.specs.Border.{Picture, Clear, Finishes, RecordingAccepted, RecordingRefused, RecordingEarly, ResetAsks};
ghost use Rattle.theorem_border.specs.Refused.{BeginRefused, CompactRefused, FillRefused, FilterRefused, PopRefused, PushRefused, ResetRefused, RowRefused, OwnRowRefused, LengthsRefused, CmdRefused, DepthRefused, ProgressRefused, SizesRefused, SkipRefused, SpansRefused, SplitRefused, StepRefused, UnsetRefused, UsedRefused, VisibleRefused, WhyRefused, WriteRefused, HiddenRefused, ListTileRefused, FiguresRefused, ToTwoRefused, ToOneRefused};
ghost use Rattle.theorem_border.specs.Numbers.{BeginKeeps, CompactKeeps, FillKeeps, FilterKeeps, PopKeeps, PushKeeps, RecordingKeeps, ResetKeeps, RowKeeps, OwnRowKeeps, SkipKeeps, SpansKeeps, StepKeeps, UnsetKeeps, UsedKeeps, VisibleKeeps, WhyKeeps, FiguresKeeps, WriteKeeps, HiddenKeeps, LengthsKeeps, CmdKeeps, DepthKeeps, ProgressKeeps};
ghost use Rattle.theorem_border.specs.Summed.{HostedSummed, HostedHidden};
ghost use Rattle.theorem_border.specs.Words.{ScreenReadBack, SizesFit, WordsWrittenBack};
ghost use Rattle.theorem_border.specs.FillLists.{FillsHosted};
ghost use Rattle.theorem_border.specs.ManyRows.{RowsHosted};
ghost use Rattle.theorem_border.specs.OwnRows.{OwnRowHosted};
ghost use Rattle.theorem_border.specs.UsedAgain.{UsedHosted};
ghost use Rattle.theorem_border.specs.TileLists.{ListReceived, ListRoom, ListNumbers};
ghost use Rattle.theorem_border.specs.Held.{HostedReached};
ghost use Rattle.theorem_border.specs.Reading.{AloneHostStands, HostedStands, LengthsRead, CmdsRead, NoCmdRead, DepthsRead, NoDepthRead, ProgressRead};
ghost use Rattle.theorem_border.specs.Colours as colours;
ghost use Rattle.theorem_border.specs.Edited.{LinePieces, LineWords};
ghost use Rattle.theorem_border.specs.Panel.{CallsDone, EachTile, MixedFinish, PaintsTaken, StepsFinish, Tile10, Tile25, Tile40};

/// What each tile receives, whatever a host calls in between.
pub fn picture_at_border()
    ensures { Picture }
{}

/// What each tile comes to, whatever the colours are: by painting steps, and by what is read of its row.
pub fn same_picture_at_border<B>()
    ensures by_steps { colours.SamePicture B }
    ensures by_commands { colours.SameStored B }
    ensures word { colours.WordRead }
{}

/// Where `coarse_can_skip` says yes, nothing of the span is hidden.
pub fn skip_at_border()
    ensures { (f : Frame) (xs : List Step) (h : Host) → Hosted f xs h → Clear h }
{}

/// Whatever a host calls, each row's minima are the summary of its depth words, so that `coarse_is_hidden` tells of the words.
pub fn minima_at_border()
    ensures summed { HostedSummed }
    ensures hidden { HostedHidden }
{}

/// Painting ends.
pub fn painting_ends_at_border()
    ensures { Finishes }
{}

/// What `coarse_bucket_recording` leaves, accepted or refused, and that a done reset was asked for a setup.
pub fn recordings_at_border()
    ensures accepted { RecordingAccepted }
    ensures refused { RecordingRefused }
    ensures early { RecordingEarly }
    ensures asks { ResetAsks }
{}

/// What `coarse_list_tile` lists of an accepted recording is what the tile receives by painting; and the numbers that it answers.
pub fn lists_at_border()
    ensures received { ListReceived }
    ensures room { ListRoom }
    ensures numbers { ListNumbers }
{}

/// Editing one line of the screen leaves the other rows as they were.
pub fn lines_stay_at_border()
    ensures words { LineWords }
    ensures pieces { LinePieces }
{}

/// A refused call leaves everything that it was lent as it was: one clause a `coarse_` call.
pub fn refusals_at_border()
    ensures reset { ResetRefused }
    ensures reset_used { UsedRefused }
    ensures fill { FillRefused }
    ensures push_layer { PushRefused }
    ensures pop_layer { PopRefused }
    ensures filter_fill { FilterRefused }
    ensures begin_painting { BeginRefused }
    ensures compact_row { CompactRefused }
    ensures paint_step { StepRefused }
    ensures paint_row { RowRefused }
    ensures paint_own_row { OwnRowRefused }
    ensures unset_runs { UnsetRefused }
    ensures visible_runs { VisibleRefused }
    ensures visible_spans { SpansRefused }
    ensures unset_runs_and_write { WriteRefused }
    ensures is_hidden { HiddenRefused }
    ensures can_skip { SkipRefused }
    ensures row_lengths { LengthsRefused }
    ensures render_cmd { CmdRefused }
    ensures depth_cmd { DepthRefused }
    ensures progress { ProgressRefused }
    ensures split_opaque_span { SplitRefused }
    ensures sizes { SizesRefused }
    ensures why { WhyRefused }
    ensures list_tile { ListTileRefused }
    ensures figures { FiguresRefused }
    ensures to_edition_two { ToTwoRefused }
    ensures to_edition_one { ToOneRefused }
{}

/// A call answers its own 1, 2 and 3 also where the border refuses what the host gives.
pub fn numbers_at_border()
    ensures reset { ResetKeeps }
    ensures reset_used { UsedKeeps }
    ensures bucket_recording { RecordingKeeps }
    ensures why { WhyKeeps }
    ensures figures { FiguresKeeps }
    ensures fill { FillKeeps }
    ensures push_layer { PushKeeps }
    ensures pop_layer { PopKeeps }
    ensures filter_fill { FilterKeeps }
    ensures begin_painting { BeginKeeps }
    ensures compact_row { CompactKeeps }
    ensures paint_step { StepKeeps }
    ensures paint_row { RowKeeps }
    ensures paint_own_row { OwnRowKeeps }
    ensures unset_runs { UnsetKeeps }
    ensures visible_runs { VisibleKeeps }
    ensures visible_spans { SpansKeeps }
    ensures unset_runs_and_write { WriteKeeps }
    ensures is_hidden { HiddenKeeps }
    ensures can_skip { SkipKeeps }
    ensures row_lengths { LengthsKeeps }
    ensures render_cmd { CmdKeeps }
    ensures depth_cmd { DepthKeeps }
    ensures progress { ProgressKeeps }
{}

/// The state's words are a screen's, there and back; a host's are those of a screen that calls have reached; and tables of the lengths that
/// `coarse_sizes` answers are what a reset takes.
pub fn words_at_border()
    ensures screen_read { ScreenReadBack }
    ensures words_written { WordsWrittenBack }
    ensures reached { HostedReached }
    ensures alone { AloneHosted }
    ensures fills { FillsHosted }
    ensures rows { RowsHosted }
    ensures reset_used { UsedHosted }
    ensures own_row { OwnRowHosted }
    ensures sizes { SizesFit }
{}

/// What a host reads of a row without painting it, whatever it has called: the rules' row and its painter.
pub fn rows_read_at_border()
    ensures stands { HostedStands }
    ensures alone { AloneHostStands }
    ensures row_lengths { LengthsRead }
    ensures render_cmds { CmdsRead }
    ensures no_render_cmd { NoCmdRead }
    ensures depth_cmds { DepthsRead }
    ensures no_depth_cmd { NoDepthRead }
    ensures progress { ProgressRead }
{}

/// The calls of examples/panel.c, and what its tiles receive.
pub fn panel_example_at_border()
    ensures calls { CallsDone }
    ensures paints { PaintsTaken }
    ensures by_steps { StepsFinish }
    ensures in_a_mixture { MixedFinish }
    ensures each_tile { EachTile }
    ensures tile_40 { Tile40 }
    ensures tile_25 { Tile25 }
    ensures tile_10 { Tile10 }
{}
