//! A row's fills against the newest ids of its buckets: how many tiles of each are asked for, are painted, are hidden.
ghost use Rattle.std.specs.Prelude.{◌≡◌, ◌+◌, ◌*◌, ◌^◌, ◌≤◌, ◌<◌, Some, ℕ, List, length, get_or, ltb, option_map};
ghost use Rattle.sizes.specs.Sizes.{tile-end, most-room};
ghost use Rattle.sizes.specs.Widths.{bucket-tiles};
ghost use Rattle.rules.specs.Commands.{Command, DepthFill};
ghost use Rattle.rules_figures.specs.RowFigures.{a-fill, depth-fills, command-fills};
ghost use Rattle.span.specs.Spans.{tiles};
ghost use Rattle.cmd.specs.DepthFills.{read-depth-words};
ghost use Rattle.paint.specs.Reading.{attrs_of};
ghost use Rattle.compact.specs.Passing.{GoodKind};
ghost use Rattle.compact.specs.Reading.{commands-from, fills-from, good-fill};
ghost use Rattle.tally.specs.Counts.{figures-of, Within, depth-kind, with-fill, with-fills, with-kind};

use crate::counts::Figures;
use cmd::command::CmdWords;
use cmd::depth_fill::DepthWords;
use compact::commands::{Kind, look};
use paint::command::Attributes;
use sizes::width::Width;
use span::TileSpan;

// Whether the bucket holds a newer id than this. One past the row holds none.
fn is_newer(ids: &[u32], bucket: u32, id: u32) -> bool
    ensures { result ≡ ltb id (get_or ids.now bucket 0) }
{
    let k = bucket as usize;
    k < ids.len() && id < ids[k]
}

// One fill more: bucket by bucket, its tiles in it are hidden where a newer id stands, and painted elsewhere.
fn add_fill(figures: &mut Figures, ids: &[u32], span: TileSpan, id: u32, width: Width)
    requires span { (span.first ≤ span.«end») × (span.«end» ≤ tile-end) }
    requires small { (n : ℕ) × (n + tile-end < 2 ^ 64) × Within n (figures-of figures.old) }
    ensures { figures-of figures.new ≡ with-fill (bucket-tiles width) ids.now (a-fill (tiles span) id) (figures-of figures.old) }
{
    let mut painted: u64 = 0;
    let mut hidden: u64 = 0;
    let mut tile = span.first;
    while tile < span.end {
        let bucket = width.below(tile);
        let next = width.times(bucket + 1).min(span.end);
        let more = u64::from(next - tile);
        if is_newer(ids, bucket, id) {
            hidden += more;
        } else {
            painted += more;
        }
        tile = next;
    }
    figures.asked += u64::from(span.end - span.first);
    figures.painted += painted;
    figures.hidden += hidden;
}

// .. where what there is is a fill: buffers ask for nothing.
fn add_kind(figures: &mut Figures, ids: &[u32], kind: Kind, width: Width)
    requires good { GoodKind kind }
    requires small { (n : ℕ) × (n + tile-end < 2 ^ 64) × Within n (figures-of figures.old) }
    ensures { figures-of figures.new ≡ with-kind (bucket-tiles width) ids.now kind (figures-of figures.old) }
{
    if let Kind::Fill(span, id) = kind {
        add_fill(figures, ids, span, id, width);
    }
}

// A depth fill of a row of so many buckets, as a fill of all their tiles; none where the words are none of the row, or its attribute is not there or not good.
fn look_depth(
    words: DepthWords,
    buckets: usize,
    attrs: &Attributes<'_>,
    width: Width,
) -> Option<Kind>
    requires { buckets ≤ 64 }
    ensures { result ≡ option_map (depth-kind (bucket-tiles width) (attrs_of attrs.now)) (good-fill (attrs_of attrs.now) (read-depth-words buckets words)) }
{
    let fill = words.read(buckets as u32)?;
    let mark = attrs.paint(fill.attrs_idx)?;
    let span = TileSpan {
        first: width.times(fill.buckets.first),
        end: width.times(fill.buckets.end),
    };
    Some(Kind::Fill(span, mark.id))
}

/// The first `count` depth fills are added, `ids` being the row's newest ids.
pub fn add_depth_fills(
    figures: &mut Figures,
    depth_cmds: &[u32],
    count: usize,
    attrs: &Attributes<'_>,
    ids: &[u32],
    width: Width,
)
    requires room { (2 * count ≤ length depth_cmds.now) × (count ≤ most-room) }
    requires buckets { length ids.now ≤ 64 }
    requires small { Within most-room (figures-of figures.old) }
    ensures added { (fs : List DepthFill) → fills-from (attrs_of attrs.now) (length ids.now) depth_cmds.now 0 count ≡ Some fs
        → figures-of figures.new
        ≡ with-fills (bucket-tiles width) ids.now (depth-fills (bucket-tiles width) (attrs_of attrs.now) fs) (figures-of figures.old) }
    ensures small { Within (most-room + most-room * tile-end) (figures-of figures.new) }
{
    let mut k: usize = 0;
    while k < count {
        if let Some(kind) = look_depth(DepthWords::at(depth_cmds, k), ids.len(), attrs, width) {
            add_kind(figures, ids, kind, width);
        }
        k += 1;
    }
}

/// The first `count` commands are added, paint and layer fills.
pub fn add_commands(
    figures: &mut Figures,
    render_cmds: &[u32],
    count: usize,
    attrs: &Attributes<'_>,
    ids: &[u32],
    width: Width,
)
    requires room { (4 * count ≤ length render_cmds.now) × (count ≤ most-room) }
    requires small { Within (most-room + most-room * tile-end) (figures-of figures.old) }
    ensures added { (cs : List Command) → commands-from (attrs_of attrs.now) render_cmds.now 0 count ≡ Some cs
        → figures-of figures.new
        ≡ with-fills (bucket-tiles width) ids.now (command-fills (bucket-tiles width) (attrs_of attrs.now) cs) (figures-of figures.old) }
    ensures small { Within (most-room + 2 * most-room * tile-end) (figures-of figures.new) }
{
    let mut k: usize = 0;
    while k < count {
        if let Some(kind) = look(CmdWords::at(render_cmds, k), attrs) {
            add_kind(figures, ids, kind, width);
        }
        k += 1;
    }
}
