//! What `editions` makes of a file's bytes: the bytes of the file that they become in the other edition, or a refusal, and an item of a stream of either.
ghost use Rattle.std.specs.Prelude.{◌≡◌, ◌*◌, ◌≤◌, [], ◌∷◌, ◌++◌, length, take, vec_len, IfOk};
ghost use Rattle.sizes.specs.Refusals.{number_of};
ghost use Rattle.rules.specs.Lines.{word-bytes, bytes-of};
ghost use Rattle.rules.specs.Recording.{in-edition};
ghost use Rattle.rules.specs.Conversions.{convert-call, stream-item};
ghost use Rattle.rect.specs.Rects.{mode_of};
ghost use Rattle.convert.specs.Placed.{placed, put_first};
ghost use Rattle.text_long.specs.Long.{long-words};
ghost use Rattle.run_editions.specs.Conversions.{source, target, file_converted, converted-words, item-room, ConvertedAs, FileAs, Ready};

use crate::bytes::put_words;
use convert::{to_edition_one, to_edition_two};
use rect::Mode;
use sizes::MOST_RECORDS;
use sizes::answers::Refusal;
use std::alloc::{AllocError, Global};
use text_long::read_words;

/// Words that a converted file has at most: its head, and seven counts, each with as many of the longest records as a section may have.
pub const CONVERTED_WORDS: usize = 9 + MOST_RECORDS * 49;

/// Bytes of the longest item of a stream: the file's length, and the file.
pub const ITEM_ROOM: usize = 4 + 4 * CONVERTED_WORDS;

/// From edition one to edition two, or back.
#[derive(Clone, Copy, Debug, PartialEq, Eq)]
pub enum Way {
    New,
    Old,
}

/// How a file is converted: which way, and the mode that its viewport is judged in.
#[derive(Clone, Copy)]
pub struct Job {
    pub mode: Mode,
    pub way: Way,
}

/// What a file is converted in: its words, the words that they become, and the text.
#[derive(Drop)]
pub struct Desk<'a> {
    pub words: &'a mut [u32],
    pub converted: &'a mut [u32],
    pub text: &'a mut [u8],
}

/// Room for the words of any converted file.
pub fn converted_buffer(alloc: Global) -> Result<Vec<u32>, AllocError>
    ensures { IfOk result (λ buffer. vec_len buffer ≡ converted-words) }
{
    Ok(vec![in alloc; 0; CONVERTED_WORDS]?)
}

/// Room for the longest item.
pub fn item_buffer(alloc: Global) -> Result<Vec<u8>, AllocError>
    ensures { IfOk result (λ buffer. vec_len buffer ≡ item-room) }
{
    Ok(vec![in alloc; 0; ITEM_ROOM]?)
}

fn convert_words(words: &[u32], job: Job, out: &mut [u32]) -> Result<usize, Refusal>
    ensures { placed result out.new
        ≡ put_first (convert-call (mode_of job.mode) (target job.way) (length out.old) (in-edition (source job.way) words.now)) out.old }
{
    match job.way {
        Way::New => to_edition_two(words, job.mode, out),
        Way::Old => to_edition_one(words, job.mode, out),
    }
}

// The words that a file's bytes become, put first; how many there are.
fn convert_bytes(
    file: &[u8],
    job: Job,
    words: &mut [u32],
    converted: &mut [u32],
) -> Result<usize, Refusal>
    requires words { length words.old ≡ long-words }
    requires room { length converted.old ≡ converted-words }
    ensures words { length words.new ≡ long-words }
    ensures room { length converted.new ≡ converted-words }
    ensures within { IfOk result (λ n. n ≤ converted-words) }
    ensures value { ConvertedAs (file_converted job file.now) result converted.new }
{
    let n = read_words(file, words)?;
    convert_words(&words[..n], job, converted)
}

// The file that a file's bytes become, as bytes put first in the text; how many there are, or the refusal.
fn file_text(
    file: &[u8],
    job: Job,
    words: &mut [u32],
    converted: &mut [u32],
    text: &mut [u8],
) -> Result<usize, Refusal>
    requires words { length words.old ≡ long-words }
    requires room { length converted.old ≡ converted-words }
    requires text { length text.old ≡ item-room }
    ensures words { length words.new ≡ long-words }
    ensures room { length converted.new ≡ converted-words }
    ensures text { length text.new ≡ item-room }
    ensures within { IfOk result (λ n. n ≤ item-room) }
    ensures value { FileAs (file_converted job file.now) result text.new }
{
    let n = convert_bytes(file, job, words, converted)?;
    Ok(put_words(&converted[..n], text))
}

// An item of words that a file becomes, put first in the text: their length in bytes, and they; how long it is.
fn put_item(converted: &[u32], text: &mut [u8]) -> usize
    requires few { length converted.now ≤ converted-words }
    requires text { length text.old ≡ item-room }
    ensures text { length text.new ≡ item-room }
    ensures within { result ≤ item-room }
    ensures value { take result text.new ≡ word-bytes (4 * length converted.now) ++ bytes-of converted.now }
{
    let head = put_words(&[4 * converted.len() as u32], text);
    head + put_words(converted, &mut text[head..])
}

// .. of a refused file: the largest word, and the refusal's number.
fn put_refusal(refusal: Refusal, text: &mut [u8]) -> usize
    requires text { length text.old ≡ item-room }
    ensures text { length text.new ≡ item-room }
    ensures within { result ≤ item-room }
    ensures value { take result text.new ≡ bytes-of (4294967295 ∷ number_of refusal ∷ []) }
{
    put_words(&[u32::MAX, refusal.number()], text)
}

// The item of a stream that a file's bytes become, put first in the text; how long it is.
fn item_text(
    file: &[u8],
    job: Job,
    words: &mut [u32],
    converted: &mut [u32],
    text: &mut [u8],
) -> usize
    requires words { length words.old ≡ long-words }
    requires room { length converted.old ≡ converted-words }
    requires text { length text.old ≡ item-room }
    ensures words { length words.new ≡ long-words }
    ensures room { length converted.new ≡ converted-words }
    ensures text { length text.new ≡ item-room }
    ensures within { result ≤ item-room }
    ensures value { take result text.new ≡ stream-item (file_converted job file.now) }
{
    match convert_bytes(file, job, words, converted) {
        Ok(n) => put_item(&converted[..n], text),
        Err(refusal) => put_refusal(refusal, text),
    }
}

impl Desk<'_> {
    /// The file that a file's bytes become, as bytes put first in the text; how many there are, or the refusal.
    pub fn convert_file(&mut self, file: &[u8], job: Job) -> Result<usize, Refusal>
        requires { Ready self.old }
        ensures ready { Ready self.new }
        ensures within { IfOk result (λ n. n ≤ length self.new.text.now) }
        ensures value { FileAs (file_converted job file.now) result self.new.text.now }
    {
        file_text(file, job, self.words, self.converted, self.text)
    }

    /// The item of a stream that a file's bytes become, put first in the text; how long it is.
    pub fn convert_item(&mut self, file: &[u8], job: Job) -> usize
        requires { Ready self.old }
        ensures ready { Ready self.new }
        ensures within { result ≤ length self.new.text.now }
        ensures value { take result self.new.text.now ≡ stream-item (file_converted job file.now) }
    {
        item_text(file, job, self.words, self.converted, self.text)
    }
}
