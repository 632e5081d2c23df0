//! The recording file's form (answer 3): where each section stands, in either edition. A section is a part of the caller's words, not a copy.
ghost use Rattle.std.specs.Prelude.{◌≡◌, ◌/◌, ◌≤◌, length};
ghost use Rattle.rules.specs.Recording.{good-count, head, starts};
ghost use Rattle.file.specs.Layouts.{stands, section_at, form_of};
ghost use Rattle.file.specs.Words.{filled, filled-with};

use sizes::answers::Refusal;
use sizes::edition::Edition;
use sizes::{MOST_RECORDS, NODE, PAINT, SEGMENT};

/// The place of its first record among the file's words, and how many records it has.
#[derive(Clone, Copy, Debug, PartialEq, Eq)]
pub struct Section {
    pub at: usize,
    pub count: usize,
}

/// The edition, and the sections. The viewport has four words, the root two.
#[derive(Clone, Copy, Debug, PartialEq, Eq)]
pub struct Layout {
    pub edition: Edition,
    pub viewport: Section,
    pub paints: Section,
    pub segments: Section,
    pub draws: Section,
    pub layers: Section,
    pub nodes: Section,
    pub root: Section,
}

// A count is 1 where it is fixed, else at most 4,096.
fn is_good_count(fixed: bool, n: u32) -> bool
    ensures { result ≡ good-count fixed n }
{
    if fixed {
        n == 1
    } else {
        n as usize <= MOST_RECORDS
    }
}

// The section whose count stands at place `at`, of records of `size` words, and the place past it.
#[tactic(auto, unfolding(crate::specs::Layouts::stands))]
fn find_section(
    words: &[u32],
    at: usize,
    size: usize,
    fixed: bool,
) -> Result<(Section, usize), Refusal>
    requires { size ≤ 23 }
    ensures { result ≡ section_at size fixed words.now at }
{
    if at < words.len()
        && is_good_count(fixed, words[at])
        && words[at] as usize * size <= words.len() - (at + 1)
    {
        let first = at + 1;
        let count = words[at] as usize;
        Ok((Section { at: first, count }, first + count * size))
    } else {
        Err(Refusal::BadForm)
    }
}

// How many words stand before the sections.
fn head(edition: Edition) -> usize
    ensures { result ≡ length (head edition) }
{
    match edition {
        Edition::One => 0,
        Edition::Two => 2,
    }
}

// The words start with the edition's head: of edition two a section of count 1, which holds a 2.
fn is_headed(words: &[u32], edition: Edition) -> bool
    ensures { result ≡ starts (head edition) words.now }
{
    match edition {
        Edition::One => true,
        Edition::Two => 2 <= words.len() && words[0] == 1 && words[1] == 2,
    }
}

/// Where the sections of a file of an edition stand, or BadForm, 3: the words are not exactly its head and its counted sections.
pub fn read_form(words: &[u32], edition: Edition) -> Result<Layout, Refusal>
    ensures { result ≡ form_of edition words.now }
{
    if !is_headed(words, edition) {
        return Err(Refusal::BadForm);
    }
    let (viewport, a) = find_section(words, head(edition), 4, true)?;
    let (paints, b) = find_section(words, a, PAINT, false)?;
    let (segments, c) = find_section(words, b, SEGMENT, false)?;
    let (draws, d) = find_section(words, c, edition.draw(), false)?;
    let (layers, e) = find_section(words, d, edition.layer(), false)?;
    let (nodes, f) = find_section(words, e, NODE, false)?;
    let (root, g) = find_section(words, f, 2, true)?;
    if words.len() != g {
        return Err(Refusal::BadForm);
    }
    Ok(Layout {
        edition,
        viewport,
        paints,
        segments,
        draws,
        layers,
        nodes,
        root,
    })
}

/// The bytes' whole words, little-endian, put first in `words`; how many there are. Up to three bytes left over are not read: their file is refused by 3.
pub fn words_of_bytes(bytes: &[u8], words: &mut [u32]) -> usize
    requires { length bytes.now / 4 ≤ length words.old }
    ensures { filled result words.new ≡ filled-with bytes.now words.old }
{
    let n = bytes.len() / 4;
    for i in 0..n {
        let at = 4 * i;
        words[i] = u32::from_le_bytes([bytes[at], bytes[at + 1], bytes[at + 2], bytes[at + 3]]);
    }
    n
}
