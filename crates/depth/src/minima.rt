//! The minima above one row's depth words: the smallest id of the whole row, of each half, of each quarter, down to one bucket. A group of 2 ^ k buckets has its
//! own minimum first, then the words of its left half, then those of its right half. A place past the row's last bucket counts as 4,294,967,295.
ghost use Rattle.std.specs.Prelude.{◌≡◌, ◌≤◌, ◌<◌, ◌^◌, ◌+◌, ◌*◌, ◌++◌, ℕ, List, length, get_or, set, min, eqb};
ghost use Rattle.rules.specs.Spans.{Span};
ghost use Rattle.rules.specs.Minima.{size, half, minima-room, summary, hidden-in, mended, mended-runs};
ghost use Rattle.rules.specs.Minima as rules;
ghost use Rattle.span.specs.Spans as spans;
ghost use Rattle.depth.specs.Answers.{hidden_of};
ghost use Rattle.depth.specs.Listing.{numbers};
ghost use Rattle.depth.specs.Minima.{IsGroup, Holds, leaf-place, lifted, above-place, beside-place, CanRaise, LiftedTo, hidden-asked};

use sizes::answers::Refusal;
use span::BucketRange;

/// Depth words and the minima above them, lent as one value: one row's, or a screen's, row by row. Laid out as in C.
#[repr(C)]
#[derive(Drop)]
pub struct Depth<'a> {
    /// A word a bucket: the id of the depth fill there, or 0.
    pub words: &'a mut [u32],
    /// `minima_room` words a row.
    pub minima: &'a mut [u32],
}

/// How many minima a row of so many buckets has: 2 P - 1, P being the smallest power of two that is at least the buckets; 0 for a row without buckets.
pub fn minima_room(buckets: usize) -> usize
    requires { buckets ≤ 2 ^ 62 }
    ensures { result ≡ minima-room buckets }
{
    if buckets == 0 {
        return 0;
    }
    // All digits up to the highest that 2 x buckets - 1 has.
    usize::MAX >> (2 * buckets - 1).leading_zeros()
}

/// Whether these are as many minima as a row of so many buckets has.
pub fn has_room(minima: &[u32], buckets: usize) -> bool
    ensures { result ≡ eqb (length minima.now) (minima-room buckets) }
{
    buckets <= minima.len() && minima.len() == minima_room(buckets)
}

// A group's words, made afresh of its buckets.
fn make_group(words: &[u32], group: &mut [u32])
    requires { IsGroup group.old }
    ensures { (k : ℕ) → length group.old ≡ half k → group.new ≡ rules.minima k words.now }
{
    let (top, rest) = group.split_at_mut(1);
    if rest.is_empty() {
        top[0] = words.first().copied().unwrap_or(u32::MAX);
        return;
    }
    let half = rest.len() / 2;
    let middle = (half / 2 + 1).min(words.len());
    let (left, right) = rest.split_at_mut(half);
    let (low, high) = words.split_at(middle);
    make_group(low, left);
    make_group(high, right);
    top[0] = left[0].min(right[0]);
}

/// A row's minima, made afresh of its words.
pub fn make(words: &[u32], minima: &mut [u32])
    requires { length minima.old ≡ minima-room (length words.now) }
    ensures { minima.new ≡ summary words.now }
{
    if !words.is_empty() {
        make_group(words, minima);
    }
}

// Where bucket b's own word stands, in a row of so many minima.
#[inline(always)]
fn place_of(room: usize, bucket: usize) -> usize
    requires group { (k : ℕ) × (room ≡ half k) × (bucket < size k) }
    ensures { (k : ℕ) → room ≡ half k → result ≡ leaf-place k bucket }
{
    2 * bucket - bucket.count_ones() as usize + (room.count_ones() as usize - 1)
}

// The group above the one at `at`, the number-th of size / 2 buckets, whose minimum is given, is worked out again: where it stands, and its minimum.
#[inline(always)]
fn raise(minima: &mut [u32], at: usize, number: usize, size: usize, least: u32) -> (usize, u32)
    requires { CanRaise (length minima.old) at number size }
    ensures above { result.0 ≡ above-place at number size }
    ensures least { result.1 ≡ min least (get_or minima.old (beside-place at number size) 0) }
    ensures minima { minima.new ≡ set minima.old result.0 result.1 }
{
    let (up, beside) = if number % 2 == 0 {
        (at - 1, at + (size - 1))
    } else {
        (at - size, at - (size - 1))
    };
    let smaller = least.min(minima[beside]);
    minima[up] = smaller;
    (up, smaller)
}

// The groups that have a bucket are worked out again from its own word up, which stands at `place` and holds the id.
#[inline(always)]
fn lift(minima: &mut [u32], place: usize, bucket: usize, id: u32)
    requires group { (k : ℕ) × (length minima.old ≡ half k) × (bucket < size k) × (place ≡ leaf-place k bucket) }
    requires holds { get_or minima.old place 0 ≡ id }
    ensures { (k : ℕ) → length minima.old ≡ half k → minima.new ≡ lifted k minima.old bucket }
{
    let mut at = place;
    let mut number = bucket;
    let mut size: usize = 2;
    let mut least = id;
    while 0 < at {
        (at, least) = raise(minima, at, number, size, least);
        number /= 2;
        size *= 2;
    }
}

// .. those of at most `most` buckets.
#[inline(always)]
fn lift_to(minima: &mut [u32], place: usize, bucket: usize, id: u32, most: usize)
    requires group { (k : ℕ) × (length minima.old ≡ half k) × (bucket < size k) × (place ≡ leaf-place k bucket) × (most < size k) }
    requires holds { get_or minima.old place 0 ≡ id }
    ensures { (k : ℕ) → length minima.old ≡ half k → LiftedTo k minima.old bucket most minima.new }
{
    let mut at = place;
    let mut number = bucket;
    let mut size: usize = 2;
    let mut least = id;
    while size <= most {
        (at, least) = raise(minima, at, number, size, least);
        number /= 2;
        size *= 2;
    }
}

/// A row's minima after its buckets from `first` to `end`, at least one, got the id: the groups that have one of these are worked out again. The words from
/// the first bucket's own to the last's are those of groups that begin in the range: all of a group that the range has whole, and the tops of those that pass
/// its end, which are worked out after it, as all that begin before it. Above the last bucket those that do not have the first suffice: the first's are all
/// worked out.
pub fn mend(minima: &mut [u32], first: usize, end: usize, id: u32)
    requires group { IsGroup minima.old }
    requires range { (first < «end») × (2 * «end» ≤ length minima.old + 1) }
    ensures { (k : ℕ) (ws : List ℕ) → length minima.old ≡ half k → Holds ws first «end» id → minima.new ≡ mended k minima.old ws first «end» }
{
    let room = minima.len();
    let last = end - 1;
    let from = place_of(room, first);
    let to = place_of(room, last);
    minima[from..=to].fill(id);
    if first < last {
        lift_to(minima, to, last, id, first ^ last);
    }
    lift(minima, from, first, id);
}

/// A row's minima after the first runs of a list, two words a run, so many of them, got the id.
pub fn mend_runs(minima: &mut [u32], id: u32, list: &[u32], count: usize)
    requires group { 0 < count → IsGroup minima.old }
    requires listed { count * 2 ≤ length list.now }
    requires runs { (n : ℕ) → n < count
        → (get_or list.now (n * 2) 0 < get_or list.now (n * 2 + 1) 0) × (2 * get_or list.now (n * 2 + 1) 0 ≤ length minima.old + 1) }
    ensures { (k : ℕ) (ws : List ℕ) (rs : List Span) (rest : List ℕ) → (0 < count → length minima.old ≡ half k) → list.now ≡ numbers rs ++ rest
        → count ≡ length rs → ((n : ℕ) → n < count → Holds ws (get_or list.now (n * 2) 0) (get_or list.now (n * 2 + 1) 0) id)
        → minima.new ≡ mended-runs k minima.old ws rs }
{
    let mut n: usize = 0;
    while n < count {
        let at = n * 2;
        mend(minima, list[at] as usize, list[at + 1] as usize, id);
        n += 1;
    }
}

// Whether every bucket of a group from first to end is hidden from the id.
fn is_group_hidden(group: &[u32], first: usize, end: usize, draw_id: u32) -> bool
    requires { IsGroup group.now }
    ensures { (k : ℕ) → length group.now ≡ half k → result ≡ hidden-in k group.now first «end» draw_id }
{
    if end <= first {
        return true;
    }
    if draw_id < group[0] {
        return true;
    }
    let (_, rest) = group.split_at(1);
    if rest.is_empty() {
        return false;
    }
    let half = rest.len() / 2;
    let middle = half / 2 + 1;
    if first == 0 && 2 * middle <= end {
        return false;
    }
    let (left, right) = rest.split_at(half);
    is_group_hidden(left, first, end.min(middle), draw_id)
        && is_group_hidden(
            right,
            first.saturating_sub(middle),
            end.saturating_sub(middle),
            draw_id,
        )
}

/// Whether every bucket of a range of a row is hidden from an id, by the row's minima alone: each holds a greater id, if they are those of its words. BadArena, 1,
/// for minima of another length; BadRun, 12, for a range out of order or past the row's buckets.
pub fn is_hidden(
    minima: &[u32],
    buckets: usize,
    range: BucketRange,
    draw_id: u32,
) -> Result<bool, Refusal>
    ensures { hidden_of result ≡ hidden-asked minima.now buckets (spans.buckets range) draw_id }
{
    if !has_room(minima, buckets) {
        return Err(Refusal::BadArena);
    }
    let first = range.first as usize;
    let end = range.end as usize;
    if end < first || buckets < end {
        return Err(Refusal::BadRun);
    }
    if end <= first {
        return Ok(true);
    }
    Ok(is_group_hidden(minima, first, end, draw_id))
}
