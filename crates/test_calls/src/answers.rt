//! The words of the answers.
use fill::list::Stopped;
use paint::Stepped;
use sizes::answers::Refusal;

/// What a list is filled with before it is lent.
pub const MARK: u32 = 2779096485;

/// A buffer for them, and where the next one goes. What has no room is dropped.
#[derive(Drop)]
pub struct Answers<'a> {
    pub words: &'a mut [u32],
    pub at: usize,
}

impl Answers<'_> {
    /// The next word of the answers.
    pub fn put(&mut self, word: u32) {
        if self.at < self.words.len() {
            self.words[self.at] = word;
            self.at += 1;
        }
    }

    /// The next words, in order.
    pub fn put_all(&mut self, words: &[u32]) {
        for word in words {
            self.put(*word);
        }
    }

    /// n words from a place on, as far as they are there.
    pub fn put_part(&mut self, words: &[u32], at: usize, n: usize) {
        for word in words.iter().skip(at).take(n) {
            self.put(*word);
        }
    }

    /// A count of what a list holds.
    pub fn put_count(&mut self, n: usize) {
        self.put(u32::try_from(n).unwrap_or(MARK));
    }

    /// The number, how many runs, the list.
    pub fn put_runs(&mut self, runs: Result<usize, Refusal>, list: &[u32]) {
        match runs {
            Ok(count) => {
                self.put(0);
                self.put_count(count);
            }
            Err(refusal) => self.put_all(&[refusal.number(), 0]),
        }
        self.put_all(list);
    }

    /// The number, whether the row is finished, how many pieces, the list.
    pub fn put_step(&mut self, step: Result<Stepped, Refusal>, list: &[u32]) {
        match step {
            Ok(done) => {
                self.put_all(&[0, u32::from(done.finished)]);
                self.put_count(done.pieces);
            }
            Err(refusal) => self.put_all(&[refusal.number(), 0, 0]),
        }
        self.put_all(list);
    }

    /// The number, and how many fills of a list are done: all `count`, where none is refused.
    pub fn put_fills(&mut self, done: Result<(), Stopped>, count: usize) {
        match done {
            Ok(()) => {
                self.put(0);
                self.put_count(count);
            }
            Err(stopped) => {
                self.put(stopped.refusal.number());
                self.put_count(stopped.done);
            }
        }
    }

    /// The number, and 1 for yes.
    pub fn put_answer(&mut self, asked: Result<bool, Refusal>) {
        match asked {
            Ok(yes) => self.put_all(&[0, u32::from(yes)]),
            Err(refusal) => self.put_all(&[refusal.number(), 0]),
        }
    }
}
