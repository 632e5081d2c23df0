//! Why a tile of a recording shows what it shows. `why` is a public call; the others are parts of it, and two of them of a program that asks of many
//! attributes.
ghost use Rattle.std.specs.Prelude.{◌≡◌, true, false, length};
ghost use Rattle.sizes.specs.Sizes.{line-table};
ghost use Rattle.sizes.specs.Widths.{bucket-tiles};
ghost use Rattle.sizes.specs.Refusals.{answer_number};
ghost use Rattle.rules.specs.Answers.{answer};
ghost use Rattle.rules.specs.Boxes.{good_viewport};
ghost use Rattle.rules.specs.Walk.{walk-all};
ghost use Rattle.rules_reason.specs.Answers.{off-screen};
ghost use Rattle.rect.specs.Rects.{box_of};
ghost use Rattle.screen.specs.Screens.{setup-of};
ghost use Rattle.screen.specs.Tables.{ScreenLent};
ghost use Rattle.screen.specs.Lent.{whole, SameLent};
ghost use Rattle.file.specs.Held.{file_of, held};
ghost use Rattle.walk.specs.Ready.{ReadyIn};
ghost use Rattle.walk.specs.Recorded.{recorded};
ghost use Rattle.tile.specs.Telling.{Telling, tell-at, nothing-told};
ghost use Rattle.tile.specs.Places.{Spotted, ToldTo};
ghost use Rattle.tile.specs.Reasons.{asked_of};
ghost use Rattle.tile.specs.Explained.{explained-as, reason_said, reason-told, told_of, explained, Accepted};

use crate::reason::{Asked, Reason, reason_of};
use crate::steps::{Spot, Tale, Within};
use crate::story::{Teller, tell_nodes};
use file::{File, Recording};
use rect::Rect;
use screen::{Lent, Screen, Setup};
use sizes::answers::Refusal;
use sizes::width::Width;
use sizes::{LINE_TABLE, MOST_LAYERS, TILE_HEIGHT, TILE_WIDTH};
use walk::bucket_recording;

/// Whether the screen of this viewport does not have the row, or the tile in a row (answer 12).
pub fn is_off_screen(viewport: Rect, row: u32, tile: u32) -> bool
    ensures { result ≡ off-screen (box_of viewport) row tile }
{
    viewport.height() / TILE_HEIGHT <= row || viewport.width() / TILE_WIDTH <= tile
}

/// The story of a spot, from the root of a recording that was judged, told into the lines; it gives what was counted. Deep, Ids or FullAttrs, as a step of the
/// walk; the story has no rows, so that none is full.
pub fn tell_spot(file: &Recording<'_>, spot: Spot, lines: &mut [u32]) -> Result<Tale, Refusal>
    requires ready { ReadyIn file.now }
    requires spot { Spotted spot }
    requires room { length lines.old ≡ line-table }
    ensures { ToldTo (walk-all Telling (tell-at spot.width (box_of spot.viewport) spot.row spot.tile) (held file.now) (nothing-told lines.old))
        result lines.new }
{
    let (first, end) = file.root();
    let within = Within {
        clip: spot.viewport.whole(),
        open: 0,
    };
    let mut tale = Tale {
        next: 1,
        paints: 0,
        layers: 0,
        filters: 0,
        levels: 0,
    };
    let teller = Teller { spot, file: *file };
    tell_nodes(MOST_LAYERS, &mut tale, &teller, within, first, end, lines)?;
    Ok(tale)
}

/// .. of a tile of the screen, with buckets of a width.
pub fn tell_tile(
    file: &Recording<'_>,
    viewport: Rect,
    width: Width,
    row: u32,
    tile: u32,
    lines: &mut [u32],
) -> Result<Tale, Refusal>
    requires ready { ReadyIn file.now }
    requires good { good_viewport (box_of viewport) ≡ true }
    requires on_screen { off-screen (box_of viewport) row tile ≡ false }
    requires room { length lines.old ≡ line-table }
    ensures { ToldTo (walk-all Telling (tell-at (bucket-tiles width) (box_of viewport) row tile) (held file.now) (nothing-told lines.old)) result lines.new }
{
    let spot = Spot {
        viewport,
        row,
        tile,
        width: width.tiles(),
    };
    tell_spot(file, spot, lines)
}

// The reason of an attribute at a tile of the screen of this viewport, of a recording that was judged.
fn reason_at(
    file: &Recording<'_>,
    viewport: Rect,
    width: Width,
    row: u32,
    tile: u32,
    asked: Asked,
) -> Result<Reason, Refusal>
    requires ready { ReadyIn file.now }
    requires good { good_viewport (box_of viewport) ≡ true }
    requires on_screen { off-screen (box_of viewport) row tile ≡ false }
    ensures { (l : ScreenLent) → explained-as (answer_number result) l (reason_said result)
        ≡ reason-told (asked_of asked) (told_of (bucket-tiles width) (box_of viewport) (held file.now) row tile) l }
{
    let mut lines = [0u32; LINE_TABLE];
    let tale = tell_tile(file, viewport, width, row, tile, &mut lines)?;
    Ok(reason_of(&lines, (tale.paints + tale.layers) as usize, asked))
}

// A recording that was bucketed answers for one attribute at one tile; BadRun, 12, off the screen.
fn explain(
    file: File<'_>,
    setup: Setup,
    row: u32,
    tile: u32,
    asked: Asked,
) -> Result<Reason, Refusal>
    requires { Accepted (file_of file) (setup-of setup) }
    ensures { (old l : ScreenLent) → answer 0 l ≡ recorded (file_of file.entry) (setup-of setup) old
        → explained-as (answer_number result) l (reason_said result) ≡ explained (file_of file.entry) (setup-of setup) row tile (asked_of asked) old }
{
    let file = Recording::read(file)?;
    let viewport = file.viewport().viewport_in(setup.mode)?;
    if is_off_screen(viewport, row, tile) {
        return Err(Refusal::BadRun);
    }
    reason_at(&file, viewport, setup.width, row, tile, asked)
}

/// A recording is bucketed, and answers for one attribute at one tile. The recording call's own refusal comes first, then BadRun, 12, for a row or a tile off
/// the screen; the screen and the words are those that the recording call leaves, in each case.
pub fn why(
    screen: &mut Screen,
    file: File<'_>,
    setup: Setup,
    row: u32,
    tile: u32,
    asked: Asked,
    lent: &mut Lent<'_>,
) -> Result<Reason, Refusal>
    ensures same { SameLent lent.old lent.new }
    ensures explained { explained-as (answer_number result) (whole screen.new lent.new) (reason_said result)
        ≡ explained (file_of file.entry) (setup-of setup) row tile (asked_of asked) (whole screen.old lent.old) }
{
    bucket_recording(screen, file, setup, lent)?;
    explain(file, setup, row, tile, asked)
}
