//! Words as little-endian bytes.
ghost use Rattle.std.specs.Prelude.{◌≡◌, ◌+◌, ◌*◌, ◌≤◌, ◌++◌, length, take, drop};
ghost use Rattle.rules.specs.Lines.{word-bytes, bytes-of};

// A word's four bytes, put at a place.
fn put_word(word: u32, at: usize, out: &mut [u8])
    requires { at + 4 ≤ length out.old }
    ensures { out.new ≡ take at out.old ++ (word-bytes word ++ drop (at + 4) out.old) }
{
    out[at..at + 4].copy_from_slice(&word.to_le_bytes());
}

/// The bytes of words, put first; how many there are.
pub fn put_words(words: &[u32], out: &mut [u8]) -> usize
    requires { 4 * length words.now ≤ length out.old }
    ensures count { result ≡ 4 * length words.now }
    ensures out_after { out.new ≡ bytes-of words.now ++ drop (4 * length words.now) out.old }
{
    for i in 0..words.len() {
        put_word(words[i], 4 * i, out);
    }
    4 * words.len()
}
