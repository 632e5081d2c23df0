//! The visible runs of a row as spans in a lent slice of them: found as `coarse_visible_runs` finds them, over tile numbers in words of the
//! call's own, and written as spans.
ghost use Rattle.std.specs.Prelude.{◌≡◌, ◌*◌, ◌/◌, min};
ghost use Rattle.sizes.specs.Sizes.{bucket-end};
ghost use Rattle.rules.specs.Answers.{answer};
ghost use Rattle.rules.specs.Spans.{span};
ghost use Rattle.host.specs.Held.{words_in, one};
ghost use Rattle.host.specs.Spans.{found_call, spans_call};

use crate::painting::coarse_visible_runs;
use crate::state::StateWords;
use depth::forms::write_runs;
use paint::Canvas;
use sizes::BUCKET_END;
use span::TileSpan;

// The number of the answer, how many runs are found, and their tile numbers.
#[derive(Clone, Copy)]
struct Found {
    number: u32,
    count: usize,
    words: [u32; BUCKET_END],
}

// The words of so many runs. Each second bucket begins one at most.
fn words_for(room: usize) -> usize
    ensures { result ≡ 2 * min room (bucket-end / 2) }
{
    if room < BUCKET_END / 2 {
        2 * room
    } else {
        BUCKET_END
    }
}

// The runs that a list of so many spans has room for, as `coarse_visible_runs` answers and lists them.
fn found_spans(
    state: &StateWords,
    canvas: &Canvas<'_>,
    row: usize,
    tiles: TileSpan,
    id: u32,
    room: usize,
    count: &mut usize,
) -> Found
    ensures { answer result.number (result.count, result.words, one count.new)
        ≡ found_call row (span tiles.first tiles.end) id (words_in state.now) canvas.now.depth.words.now room (one count.old) }
{
    let mut words = [0u32; BUCKET_END];
    let n = words_for(room);
    let number = coarse_visible_runs(state, canvas, row, tiles, id, &mut words[..n], count);
    if number != 0 {
        return Found {
            number,
            count: 0,
            words,
        };
    }
    Found {
        number,
        count: *count,
        words,
    }
}

/// The runs of the tiles first to end whose buckets hold at most the id, as spans at the list's start; count: how many. Refused as `coarse_visible_runs`, by 14
/// where the list is shorter; the spans after the runs stay. At id 0 they are the unset runs.
#[unsafe(no_mangle)]
pub extern "C" fn coarse_visible_spans(
    state: &StateWords,
    canvas: &Canvas<'_>,
    row: usize,
    tiles: TileSpan,
    id: u32,
    list: &mut [TileSpan],
    count: &mut usize,
) -> u32
    ensures { answer result (list.new, one count.new)
        ≡ spans_call row (span tiles.first tiles.end) id (words_in state.now) canvas.now.depth.words.now list.old (one count.old) }
{
    let found = found_spans(state, canvas, row, tiles, id, list.len(), count);
    let words = found.words;
    write_runs(list, &words, found.count);
    found.number
}
