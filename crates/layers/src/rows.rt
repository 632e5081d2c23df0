//! Some rows of a screen, a range of their numbers: judged, and the same act done on each. Parts: each has a `requires`, which the steps have judged.
ghost use Rattle.std.specs.Prelude.{◌≡◌, ◌≤◌, ◌*◌, length, None};
ghost use Rattle.sizes.specs.Sizes.{most-layers, most-room, most-rows, row-size};
ghost use Rattle.rules.specs.Lists.{range};
ghost use Rattle.rules.specs.Commands.{paint-fill};
ghost use Rattle.span.specs.Spans.{tiles};
ghost use Rattle.row.specs.Words.{Words, put_command};
ghost use Rattle.row.specs.Row.{held};
ghost use Rattle.row.specs.Cmds.{Short};
ghost use Rattle.row.specs.Room.{Told};
ghost use Rattle.row.specs.Arena.{lay};
ghost use Rattle.row.specs.Rows.{all-held, SameRows};
ghost use Rattle.row.specs.Acts.{ensured};
ghost use Rattle.layers.specs.Band.{band_number, OnRows, each, screen_rows};

use row::act::{RowAct, on_row};
use row::acts::ensure_row_layers;
use row::room::{Fault, Limits, ONE_COMMAND, turn_to};
use row::{Row, Rows};
use screen::Screen;
use sizes::answers::Refusal;
use span::TileSpan;
use std::ops::Range;

/// The rows of a band: BadRecord for the record of one of them, at once; else whether one more command, with the PushBufs that the row lacks, passes C
/// somewhere.
#[tactic(auto, unfolding(crate::specs::Band::band_number))]
pub fn judge_rows(screen: Screen, rows: &[u32], band: &Range<usize>) -> Result<Fault, Refusal>
    requires layers { screen.layers ≤ most-layers }
    requires room { screen.c ≤ most-room }
    requires few { band.now.«end» ≤ most-rows }
    requires there { band.now.«end» * row-size ≤ length rows.now }
    ensures { Told (band_number screen.c screen.d screen.layers rows.now (range band.now.start band.now.«end»)) result }
{
    let limits = Limits {
        c: screen.c,
        d: screen.d,
        layers: screen.layers,
        once: 0,
    };
    let mut found = Fault::Nothing;
    for r in band.start..band.end {
        let turned = turn_to(rows, limits, found, r as u32)?;
        found = turned.add(limits, ONE_COMMAND).found;
    }
    Ok(found)
}

/// Rule 5 alone, with `layers` layers open.
#[derive(Clone, Copy, Debug, PartialEq, Eq)]
pub struct Touch {
    pub layers: u32,
}

impl RowAct for Touch {
    ghost made = { λ a w. ensured a.layers w };

    ghost Asks = { λ a w. a.layers ≤ most-layers };

    fn on(self, row: &mut Row<'_>) {
        ensure_row_layers(row, self.layers);
    }
}

/// Rules 5 to 7 for a solid fill that is no depth fill, over a span of tiles, with `layers` layers open.
#[derive(Clone, Copy, Debug, PartialEq, Eq)]
pub struct Plain {
    pub layers: u32,
    pub span: TileSpan,
    pub attrs_idx: u32,
}

impl RowAct for Plain {
    ghost made = { λ a w. put_command (paint-fill (tiles a.span) None a.attrs_idx) (ensured a.layers w) };

    ghost Asks = { λ a w. Short (tiles a.span) × (a.layers ≤ most-layers) };

    #[tactic(auto, using(crate::proofs::RowsLaws::layers_room))]
    fn on(self, row: &mut Row<'_>) {
        ensure_row_layers(row, self.layers);
        row.push_paint(self.span, None, self.attrs_idx);
    }
}

/// An act that asks nothing of a row but room, on each row of a band.
pub fn on_rows<A: RowAct>(screen: Screen, rows: &mut Rows<'_>, band: &Range<usize>, act: A)
    requires asks { (w : Words) → A.Asks act w }
    requires rows { OnRows screen (A.made act) band.now.start band.now.«end» (all-held rows.old) }
    ensures same { SameRows rows.old rows.new }
    ensures rows { all-held rows.new ≡ lay (each (A.made act) (range band.now.start band.now.«end») (screen_rows screen rows.old)) }
{
    for r in band.start..band.end {
        on_row(
            rows.state,
            rows.render_cmds,
            rows.depth_cmds,
            screen.c,
            screen.d,
            r,
            act,
        );
    }
}
