//! The newest id of each of a row's buckets, of all its depth fills.
ghost use Rattle.std.specs.Prelude.{◌≡◌, ◌*◌, ◌≤◌, length, option_map};
ghost use Rattle.rules.specs.Depth.{written};
ghost use Rattle.rules.specs.Compacted.{newest-ids};
ghost use Rattle.span.specs.Spans.{buckets};
ghost use Rattle.cmd.specs.Reading.{only_if};
ghost use Rattle.cmd.specs.DepthFills.{read-depth-words};
ghost use Rattle.paint.specs.Reading.{attrs_of};
ghost use Rattle.compact.specs.Reading.{good-fill, fills-from, one-written};

use cmd::depth_fill::DepthWords;
use paint::command::Attributes;
use span::BucketRange;

// Stores the id in those buckets of the range that hold 0.
fn write_unset(ids: &mut [u32], range: BucketRange, id: u32)
    requires { range.«end» ≤ length ids.old }
    ensures { ids.new ≡ written ids.old id (buckets range) }
{
    let hi = range.end as usize;
    let mut at = range.first as usize;
    while at < hi {
        if ids[at] == 0 {
            ids[at] = id;
        }
        at += 1;
    }
}

// The depth fill of the words, written. Not for words that are no depth fill of the row, or an attribute that is not there or not good.
fn write_fill(words: DepthWords, attrs: &Attributes<'_>, ids: &mut [u32]) -> bool
    requires narrow { length ids.old ≤ 65535 }
    ensures kept { length ids.new ≡ length ids.old }
    ensures wrote { only_if result ids.new
        ≡ option_map (one-written (attrs_of attrs.now) ids.old) (good-fill (attrs_of attrs.now) (read-depth-words (length ids.old) words)) }
{
    let Some(fill) = words.read(ids.len() as u32) else {
        return false;
    };
    let Some(mark) = attrs.paint(fill.attrs_idx) else {
        return false;
    };
    write_unset(ids, fill.buckets, mark.id);
    true
}

/// The newest id of each bucket into `ids`, which has a word a bucket; 0 where no depth fill covers it. The first `count` depth fills are written from the last
/// to the first. Not for words that are no depth fill of the row, or an attribute that is not there or not good: what `ids` holds then is worth nothing.
pub fn newest_ids(depth_cmds: &[u32], count: usize, attrs: &Attributes<'_>, ids: &mut [u32]) -> bool
    requires fills { 2 * count ≤ length depth_cmds.now }
    requires narrow { length ids.old ≤ 65535 }
    ensures kept { length ids.new ≡ length ids.old }
    ensures newest { only_if result ids.new
        ≡ option_map (newest-ids (attrs_of attrs.now) (length ids.old)) (fills-from (attrs_of attrs.now) (length ids.old) depth_cmds.now 0 count) }
{
    ids.fill(0);
    let mut k = count;
    while 0 < k {
        k -= 1;
        if !write_fill(DepthWords::at(depth_cmds, k), attrs, ids) {
            return false;
        }
    }
    true
}
