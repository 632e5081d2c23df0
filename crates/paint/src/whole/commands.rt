//! A row's commands, one or as many as are asked for, as far as one look settles each. Parts: where a function asks something, its callers have judged it.
ghost use Rattle.std.specs.Prelude.{◌≡◌, List, ℕ, Some, ◌+◌, ◌*◌, ◌^◌, ◌≤◌, ◌<◌, MatchOption, length};
ghost use Rattle.sizes.specs.Sizes.{tile-end, most-layers};
ghost use Rattle.sizes.specs.Widths.{bucket-tiles};
ghost use Rattle.cmd.specs.Commands.{cmd_at};
ghost use Rattle.screen.specs.Depths.{depths};
ghost use Rattle.paint.specs.Summaries.{summary-at};
ghost use Rattle.paint.specs.Painting.{word};
ghost use Rattle.paint.specs.Reading.{attrs_of};
ghost use Rattle.paint.specs.Kinds.{summary-by};
ghost use Rattle.paint.specs.Rows.{CalmRow, Ran, Stay, mark_in, reached};

use crate::command::{Mark, StoredRow};
use crate::whole::looks::{Hull, is_fill, level_after};
use crate::whole::pieces::{Cut, Pieces, most_runs, put_fill};
use crate::whole::scale::Scale;
use cmd::command::CmdWords;
use sizes::{END, FIRST, LARGEST, PIECE, TILE_END};

/// A row whose commands are looked at: its words, its summary, how wide a bucket is, and how many tiles its buckets have, at most 8,192.
#[derive(Clone, Copy)]
pub struct Seen<'a> {
    pub row: StoredRow<'a>,
    pub hull: Hull,
    pub scale: Scale,
    pub tiles: u32,
    ghost summary: { summary-by hull.from hull.to hull.largest ≡ summary-at row.state.now },
    ghost wide: { 2 ^ scale.shift ≡ bucket-tiles row.width },
    ghost few: { tiles ≤ tile-end },
}

impl<'a> Seen<'a> {
    /// A row of so many buckets.
    #[inline(always)]
    pub fn of(row: &StoredRow<'a>, buckets: usize) -> Seen<'a>
        requires few { buckets ≤ 65535 }
        ensures same { result.row ≡ row.now }
        ensures tiles { result.tiles ≤ buckets * bucket-tiles row.now.width }
    {
        let scale = Scale::of(row.width);
        Seen {
            row: *row,
            hull: Hull {
                from: row.state[FIRST],
                to: row.state[END],
                largest: row.state[LARGEST],
            },
            scale,
            tiles: scale.times(buckets as u32).min(TILE_END),
        }
    }

    // The command at a place, a fill, if its words are in order and the list has room for its pieces: the nesting after it.
    #[inline(always)]
    fn put(self, depth: &[u32], at: usize, cut: Cut, pieces: &mut Pieces<'_>) -> Option<u32>
        requires calm { CalmRow self.row }
        requires tiles { self.tiles ≤ length depth.now * bucket-tiles self.row.width }
        requires at { (at < word self.row.state.now 0) × (cut.nesting ≤ most-layers) }
        requires words { cut.words ≡ cmd_at self.row.render_cmds.now at }
        requires mark { mark_in (attrs_of self.row.attrs) cut.words.tag cut.words.attrs_idx ≡ Some cut.mark }
        requires tag { (0 < cut.words.tag) × (cut.words.tag ≤ 4) }
        requires scale { cut.scale ≡ self.scale }
        ensures same { pieces.new.list.ghost_name ≡ pieces.old.list.ghost_name }
        ensures settled { MatchOption result (Stay pieces.old pieces.new)
            (λ j. (ms : List ℕ) → Ran self.entry.row (depths depth.now ms) at cut.nesting pieces.old (reached (at + 1) j) pieces.new) }
    {
        let words = cut.words;
        if !is_fill(words, self.tiles) {
            return None;
        }
        if self
            .hull
            .is_apart(words.span.first(), words.span.end(), cut.mark.id)
        {
            if !pieces.has_room(PIECE) {
                return None;
            }
            pieces.push(cut.whole());
        } else {
            if !pieces.has_room(PIECE * most_runs(words.span, cut.scale)) {
                return None;
            }
            put_fill(depth, cut, pieces);
        }
        Some(cut.nesting)
    }

    /// The command at a place, if one look settles it and the list has room for its pieces: the nesting after it. Else nothing changes.
    #[inline(always)]
    pub fn settle(
        self,
        depth: &[u32],
        at: usize,
        nesting: u32,
        pieces: &mut Pieces<'_>,
    ) -> Option<u32>
        requires calm { CalmRow self.row }
        requires tiles { self.tiles ≤ length depth.now * bucket-tiles self.row.width }
        requires at { (at < word self.row.state.now 0) × (nesting ≤ most-layers) }
        ensures same { pieces.new.list.ghost_name ≡ pieces.old.list.ghost_name }
        ensures settled { MatchOption result (Stay pieces.old pieces.new)
            (λ j. (ms : List ℕ) → Ran self.entry.row (depths depth.now ms) at nesting pieces.old (reached (at + 1) j) pieces.new) }
    {
        let words = CmdWords::at(self.row.render_cmds, at);
        let scale = self.scale;
        if 0 < words.tag && words.tag <= 2 {
            let mark = self.row.attrs.paint(words.attrs_idx)?;
            let cut = Cut {
                words,
                nesting,
                mark,
                scale,
            };
            return self.put(depth, at, cut, pieces);
        }
        if 4 < words.tag {
            return level_after(words, nesting);
        }
        if words.tag == 0 {
            return None;
        }
        let mark = self.row.attrs.layer(words.attrs_idx)?;
        let cut = Cut {
            words,
            nesting,
            mark,
            scale,
        };
        self.put(depth, at, cut, pieces)
    }
}

/// Where a run of commands ended: the place of the next command, and the nesting.
#[derive(Clone, Copy, Debug, PartialEq, Eq)]
pub struct Reached {
    pub at: usize,
    pub nesting: u32,
}

/// The commands from `start` on, up to `stop` or the first that the look does not settle, or that the list may lack room for.
#[inline(always)]
pub fn run_commands(
    row: &StoredRow<'_>,
    depth: &[u32],
    pieces: &mut Pieces<'_>,
    start: usize,
    stop: usize,
    nesting: u32,
) -> Reached
    requires calm { CalmRow row.now }
    requires start_le_stop { (start ≤ stop) × (stop ≤ word row.now.state.now 0) × (nesting ≤ most-layers) }
    requires few { length depth.now ≤ 65535 }
    ensures same { pieces.new.list.ghost_name ≡ pieces.old.list.ghost_name }
    ensures reaches { (ms : List ℕ) → Ran row.now (depths depth.now ms) start nesting pieces.old result pieces.new }
    ensures at_le_stop { result.at ≤ stop }
{
    let seen = Seen::of(row, depth.len());
    let mut at = start;
    let mut level = nesting;
    while at < stop {
        let Some(next) = seen.settle(depth, at, level, pieces) else {
            break;
        };
        level = next;
        at += 1;
    }
    Reached { at, nesting: level }
}
