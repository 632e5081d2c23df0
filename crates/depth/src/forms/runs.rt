//! Runs as spans, from a list of tile numbers, two words a run.
ghost use Rattle.std.specs.Prelude.{◌≡◌, ◌+◌, ◌*◌, ◌<◌, ◌≤◌, length, replicate};
ghost use Rattle.sizes.specs.Sizes.{most-runs};
ghost use Rattle.depth.specs.Spans.{span-at, no_span, with-spans};

use sizes::MOST_RUNS;
use span::TileSpan;

/// Run n of a list of tile numbers.
pub fn run_at(words: &[u32], n: usize) -> TileSpan
    requires { n * 2 + 1 < length words.now }
    ensures { result ≡ span-at words.now n }
{
    let at = n * 2;
    TileSpan {
        first: words[at],
        end: words[at + 1],
    }
}

/// The first `count` runs of a list of tile numbers as spans, left to right; the entries after them stay.
pub fn write_runs(list: &mut [TileSpan], words: &[u32], count: usize)
    requires { (count ≤ length list.old) × (count * 2 ≤ length words.now) }
    ensures { list.new ≡ with-spans words.now count list.old }
{
    let mut n: usize = 0;
    while n < count {
        list[n] = run_at(words, n);
        n += 1;
    }
}

/// The same by value, in MOST_RUNS spans: no row of a screen has more runs. The spans after the runs are 0 to 0.
pub fn runs_of(words: &[u32], count: usize) -> [TileSpan; MOST_RUNS]
    requires { (count ≤ most-runs) × (count * 2 ≤ length words.now) }
    ensures { result ≡ with-spans words.now count (replicate most-runs no_span) }
{
    let mut list = [TileSpan { first: 0, end: 0 }; MOST_RUNS];
    write_runs(&mut list, words, count);
    list
}
