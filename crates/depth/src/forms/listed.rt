//! A row's runs as spans in a lent list of any length: found as tile numbers in words of the call's own, then written as spans.
ghost use Rattle.std.specs.Prelude.{◌≡◌, length};
ghost use Rattle.sizes.specs.Widths.{bucket-tiles};
ghost use Rattle.rules.specs.Depth.{visible_answer};
ghost use Rattle.span.specs.Spans.{tiles};
ghost use Rattle.depth.specs.Listing as words;
ghost use Rattle.depth.specs.SpanLists.{out, listing, own_words, found_out};

use crate::forms::runs::write_runs;
use crate::visible_runs;
use sizes::BUCKET_END;
use sizes::answers::Refusal;
use sizes::width::Width;
use span::TileSpan;

// How many runs are found, and their tile numbers.
#[derive(Clone, Copy)]
struct Found {
    count: usize,
    words: [u32; BUCKET_END],
}

// The runs, if a list of `room` spans has room for them. Tiles end at 8,192, in at most BUCKET_END buckets, and two runs have a bucket between them: the words
// hold them all.
fn found_runs(
    depth: &[u32],
    span: TileSpan,
    draw_id: u32,
    room: usize,
    width: Width,
) -> Result<Found, Refusal>
    ensures { found_out result ≡ words.listing (visible_answer (bucket-tiles width) depth.now draw_id (tiles span) room) own_words }
{
    let mut words = [0u32; BUCKET_END];
    let count = visible_runs(depth, span, draw_id, &mut words, width)?;
    if room < count {
        return Err(Refusal::NoRoom);
    }
    Ok(Found { count, words })
}

/// The runs of a span's tiles whose buckets hold at most the id, as spans at the list's start; the entries after them stay. It gives their number. BadRun, 12,
/// for no range; NoRoom, 14, where the list is shorter than the runs. At id 0 they are the unset runs.
pub fn list_visible_spans(
    depth: &[u32],
    span: TileSpan,
    draw_id: u32,
    list: &mut [TileSpan],
    width: Width,
) -> Result<usize, Refusal>
    ensures { out result list.new ≡ listing (visible_answer (bucket-tiles width) depth.now draw_id (tiles span) (length list.old)) list.old }
{
    let found = found_runs(depth, span, draw_id, list.len(), width)?;
    let words = found.words;
    write_runs(list, &words, found.count);
    Ok(found.count)
}
