//! Long files, as the programs take them that keep no rows: what is lent for one, and its words.
#![tactic(auto)]

ghost use Rattle.std.specs.Prelude.{◌≡◌, ◌≤◌, length, vec_len, IfOk};
ghost use Rattle.text_long.specs.Long.{good-long, long-words, long-room, WordsRead};

use file::words_of_bytes;
use sizes::LONG_FILE_BYTES;
use sizes::answers::Refusal;
use std::alloc::{AllocError, Global};

/// Words of the longest file.
pub const LONG_WORDS: usize = LONG_FILE_BYTES / 4;

/// Bytes of the buffer that a file is read to: the longest file, and one byte more, by which a longer one is known.
pub const LONG_ROOM: usize = LONG_FILE_BYTES + 1;

/// Room for the words of the longest file.
pub fn word_buffer(alloc: Global) -> Result<Vec<u32>, AllocError>
    ensures { IfOk result (λ buffer. vec_len buffer ≡ long-words) }
{
    Ok(vec![in alloc; 0; LONG_WORDS]?)
}

/// The buffer that a file is read to.
pub fn long_buffer(alloc: Global) -> Result<Vec<u8>, AllocError>
    ensures { IfOk result (λ buffer. vec_len buffer ≡ long-room) }
{
    Ok(vec![in alloc; 0; LONG_ROOM]?)
}

// At most 1,048,576 bytes, in whole words.
fn is_good_long(n: usize) -> bool
    ensures { result ≡ good-long n }
{
    n <= LONG_FILE_BYTES && n % 4 == 0
}

/// The words of a file's bytes, put first; how many there are. 3 for more than 1,048,576 bytes or no whole words.
pub fn read_words(file: &[u8], words: &mut [u32]) -> Result<usize, Refusal>
    requires { length words.old ≡ long-words }
    ensures same { length words.new ≡ long-words }
    ensures within { IfOk result (λ n. n ≤ long-words) }
    ensures value { WordsRead file.now result words.new }
{
    if !is_good_long(file.len()) {
        return Err(Refusal::BadForm);
    }
    Ok(words_of_bytes(file, words))
}
