//! Calls each public step with a screen, an arena or a table that somebody scribbled in, or that is lent one word short, and prints the
//! answers: one line for each forging of data/forged.txt, fifteen calls on it: fill, push, pop, filter fill, begin, a step that takes a depth fill, one
//! that takes a command, the three runs, `can_skip`, a step that takes a layer's closing fill, `is_hidden`, `compact_row` of either row. `!` marks a refused call
//! that changed a word.
#![tactic(auto)]

ghost use Rattle.std.specs.Prelude.{length};
ghost use Rattle.std.specs.Iterator.{at_most};

use file::words_of_bytes;
use std::process::ExitCode;
use std::{fs, io};
use test_calls::{Tables, Words, run, word_at};

const PATH: &str = "forged.words";

// The calls of a line.
const CALLS: usize = 15;

// Most words of a sequence's answers.
const MOST: usize = 256;

// A sequence, and the place of its forged call's answer.
#[derive(Clone, Copy)]
struct Case<'a> {
    place: usize,
    sequence: &'a [u32],
}

#[derive(Drop)]
struct Cases<'a> {
    words: Words<'a>,
}

impl<'a> Iterator for Cases<'a> {
    type Item = Case<'a>;

    ghost remaining = { λ cases. at_most (length cases.words.left.now) };

    // Each sequence stands after the place and its length.
    fn next(&mut self) -> Option<Case<'a>> {
        let place = self.words.try_word()? as usize;
        let sequence = self.words.records(1);
        Some(Case { place, sequence })
    }
}

// The number that stands at a place of n words of answers; the sums before it and at the end say whether a word changed.
fn report(rt: &impl Print, answers: &[u32], place: usize, n: usize) -> io::Result<()> {
    let number = word_at(answers, place);
    print!(rt; " {number}")?;
    if number != 0
        && 1 <= place
        && 1 <= n
        && word_at(answers, place - 1) != word_at(answers, n - 1)
    {
        print!(rt; "!")?;
    }
    Ok(())
}

fn answer_all(rt: &(impl AllocGlobal + Print), words: &[u32]) -> io::Result<()> {
    let mut tables = Tables::new(rt.alloc())?;
    let mut answers = [0; MOST];
    let cases = Cases {
        words: Words { left: words },
    };
    for (i, case) in cases.enumerate() {
        let n = run(case.sequence, &mut tables, &mut answers);
        report(rt, &answers, case.place, n)?;
        if i % CALLS == CALLS - 1 {
            println!(rt)?;
        }
    }
    Ok(())
}

fn answer_bytes(rt: &(impl AllocGlobal + Print), bytes: &[u8]) -> io::Result<()> {
    let mut words = vec![in rt.alloc(); 0; bytes.len() / 4]?;
    words_of_bytes(bytes, &mut words);
    answer_all(rt, &words)
}

// Says on standard error what could not be read, and why in the system's words, without the number that std adds to them.
fn complain(rt: &(impl AllocGlobal + Eprint), error: &io::Error) -> io::Result<()> {
    let text = error.to_string(rt.alloc())?;
    match text.as_str().split_once(" (os error ") {
        Some((words, _)) => eprintln!(rt; "{PATH}: {words}"),
        None => eprintln!(rt; "{PATH}: {text}"),
    }
}

fn main(rt: HostRuntime) -> io::Result<ExitCode> {
    match fs::read(&rt, PATH) {
        Ok(bytes) => answer_bytes(&rt, &bytes)?,
        Err(error) => {
            complain(&rt, &error)?;
            return Ok(ExitCode::FAILURE);
        }
    }
    Ok(ExitCode::SUCCESS)
}
