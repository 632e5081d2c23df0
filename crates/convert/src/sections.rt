//! A file's sections, one after the other: each its count, then its records. Parts: a caller has read the form.
ghost use Rattle.std.specs.Prelude.{◌≡◌, ◌==◌, ◌+◌, ◌*◌, ◌≤◌, ◌++◌, length, drop, map};
ghost use Rattle.std.specs.List.{list_all};
ghost use Rattle.rules.specs.Lists.{every};
ghost use Rattle.rules.specs.Recording.{shape, head, records, in-edition};
ghost use Rattle.rules.specs.Conversions.{resized, keeps, all-kept};
ghost use Rattle.convert.specs.Written.{joined};
ghost use Rattle.convert.specs.Sections.{sections_of, Formed, file-in, sizes-of};

use sizes::edition::Edition;
use sizes::{NODE, PAINT, SEGMENT};

// The sections after the head.
const SECTIONS: usize = 7;

// The words of a record of each section.
fn record_sizes(edition: Edition) -> [usize; SECTIONS]
    ensures { result ≡ sizes-of (shape edition) }
{
    [4, PAINT, SEGMENT, edition.draw(), edition.layer(), NODE, 2]
}

// The words before the sections.
fn head_length(edition: Edition) -> usize
    ensures { result ≡ length (head edition) }
{
    match edition {
        Edition::One => 0,
        Edition::Two => 2,
    }
}

// No word but 0.
fn are_zeros(words: &[u32]) -> bool
    ensures { result ≡ list_all (λ word. word == 0) words.now }
{
    words.iter().all(|word| *word == 0)
}

// No word but 0 stands past the first `kept` of a record.
fn is_record_kept(words: &[u32], kept: usize) -> bool
    requires { kept ≤ length words.now }
    ensures { result ≡ keeps kept words.now }
{
    are_zeros(&words[kept..])
}

// .. of any of the records, of `size` words each.
fn is_section_kept(words: &[u32], size: usize, count: usize, kept: usize) -> bool
    requires { length words.now ≡ count * size }
    ensures { result ≡ every (keeps kept) (records size count words.now) }
{
    size <= kept || (0..count).all(|i| is_record_kept(&words[size * i..size * i + size], kept))
}

/// Nothing but 0 is cut away where a file of edition `from` becomes one of edition `to`.
pub fn is_kept(words: &[u32], from: Edition, to: Edition) -> bool
    requires { Formed from words.now }
    ensures { result ≡ all-kept (shape to) (sections_of (in-edition from words.now)) }
{
    let sizes = record_sizes(from);
    let kept = record_sizes(to);
    let mut at = head_length(from);
    for k in 0..SECTIONS {
        let count = words[at] as usize;
        let end = at + 1 + count * sizes[k];
        if !is_section_kept(&words[at + 1..end], sizes[k], count, kept[k]) {
            return false;
        }
        at = end;
    }
    true
}

/// The words of the file that a file of edition `from` becomes in edition `to`.
pub fn converted_length(words: &[u32], from: Edition, to: Edition) -> usize
    requires { Formed from words.now }
    ensures { result ≡ length (file-in from to words.now) }
{
    let old_sizes = record_sizes(from);
    let new_sizes = record_sizes(to);
    let mut at = head_length(from);
    let mut length = head_length(to);
    for k in 0..SECTIONS {
        let count = words[at] as usize;
        at += 1 + count * old_sizes[k];
        length += 1 + count * new_sizes[k];
    }
    length
}

// A record in the words that are there for it: cut, or continued by 0.
fn put_record(words: &[u32], out: &mut [u32])
    ensures { out.new ≡ resized (length out.old) words.now }
{
    let kept = words.len().min(out.len());
    out[..kept].copy_from_slice(&words[..kept]);
    out[kept..].fill(0);
}

// A section's records, of `size` words each, as records of `new_size` words.
fn put_records(words: &[u32], size: usize, count: usize, out: &mut [u32], new_size: usize)
    requires long { length words.now ≡ count * size }
    requires room { length out.old ≡ count * new_size }
    ensures { out.new ≡ joined (map (resized new_size) (records size count words.now)) }
{
    if size == new_size {
        out.copy_from_slice(words);
    } else {
        for i in 0..count {
            put_record(
                &words[size * i..size * i + size],
                &mut out[new_size * i..new_size * i + new_size],
            );
        }
    }
}

// The words before the sections, put first; how many there are.
fn put_head(edition: Edition, out: &mut [u32]) -> usize
    requires { length (head edition) ≤ length out.old }
    ensures count { result ≡ length (head edition) }
    ensures words { out.new ≡ head edition ++ drop (length (head edition)) out.old }
{
    match edition {
        Edition::One => 0,
        Edition::Two => {
            out[0] = 1;
            out[1] = 2;
            2
        }
    }
}

/// The file that a file of edition `from` becomes in edition `to`, put first.
pub fn put_file(words: &[u32], from: Edition, to: Edition, out: &mut [u32])
    requires form { Formed from words.now }
    requires room { length (file-in from to words.now) ≤ length out.old }
    ensures { out.new ≡ file-in from to words.now ++ drop (length (file-in from to words.now)) out.old }
{
    let old_sizes = record_sizes(from);
    let new_sizes = record_sizes(to);
    let mut at = head_length(from);
    let mut put = put_head(to, out);
    for k in 0..SECTIONS {
        let count = words[at] as usize;
        let end = at + 1 + count * old_sizes[k];
        let put_end = put + 1 + count * new_sizes[k];
        out[put] = words[at];
        put_records(
            &words[at + 1..end],
            old_sizes[k],
            count,
            &mut out[put + 1..put_end],
            new_sizes[k],
        );
        at = end;
        put = put_end;
    }
}
