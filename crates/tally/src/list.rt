//! A list of recordings, one after the other in one list of words.
ghost use Rattle.std.specs.Prelude.{◌≡◌, ◌+◌, ◌≤◌, length, IsErr};
ghost use Rattle.sizes.specs.Refusals.{answer_number};
ghost use Rattle.rules.specs.Answers.{answer};
ghost use Rattle.rules.specs.Lists.{slice};
ghost use Rattle.rules.specs.Recording.{in-edition};
ghost use Rattle.file.specs.Held.{file_of};
ghost use Rattle.rules_figures.specs.Accounted.{most-recordings};
ghost use Rattle.rules_figures.specs.Figures.{numbers};
ghost use Rattle.cmd.specs.Attrs.{words-at};
ghost use Rattle.screen.specs.Screens.{setup-of};
ghost use Rattle.screen.specs.Lent.{tables_in, whole, SameLent};
ghost use Rattle.tally.specs.Counts.{figures-of};
ghost use Rattle.tally.specs.Listed.{listed_of, good-ends, figures-number, figured, desk};

use crate::counts::Figures;
use crate::recordings::recording_figures;
use file::File;
use screen::{Lent, Screen, Setup};
use sizes::answers::Refusal;
use sizes::edition::Edition;

/// No list of recordings has more.
pub const MOST_RECORDINGS: usize = 65_536;

/// How many numbers of a table one recording fills.
pub const NUMBERS: usize = 6;

/// Recordings of one edition, one after the other: their words, and where each ends among them.
#[derive(Clone, Copy)]
pub struct Recordings<'a> {
    pub edition: Edition,
    pub words: &'a [u32],
    pub ends: &'a [usize],
}

// The constant is the number that the rules call by the same name. It does nothing: what it promises is a theorem.
fn constants_hold()
    ensures most { MOST_RECORDINGS ≡ most-recordings }
{}

// No end falls, and none passes the words.
fn is_good_ends(words: usize, ends: &[usize]) -> bool
    ensures { result ≡ good-ends 0 words ends.now }
{
    let mut at = 0;
    for k in 0..ends.len() {
        let end = ends[k];
        if end < at {
            return false;
        }
        if words < end {
            return false;
        }
        at = end;
    }
    true
}

// 4 for too many recordings or their ends, then 14 for a table with no room.
fn judge(list: Recordings<'_>, table: usize) -> Result<(), Refusal>
    ensures { answer_number result ≡ figures-number (listed_of list.entry) table }
{
    if MOST_RECORDINGS < list.ends.len() {
        return Err(Refusal::BadRecord);
    }
    if !is_good_ends(list.words.len(), list.ends) {
        return Err(Refusal::BadRecord);
    }
    if table < NUMBERS * (list.ends.len() + 1) {
        return Err(Refusal::NoRoom);
    }
    Ok(())
}

// The six numbers, from place `at` on.
fn put(table: &mut [u64], at: usize, figures: Figures)
    requires { at + 6 ≤ length table.old }
    ensures { table.new ≡ words-at table.old at (numbers (figures-of figures)) }
{
    table[at] = figures.asked;
    table[at + 1] = figures.painted;
    table[at + 2] = figures.hidden;
    table[at + 3] = figures.commands;
    table[at + 4] = figures.fills;
    table[at + 5] = figures.refused;
}

// The recording between two places of the words.
fn file_in(list: Recordings<'_>, from: usize, end: usize) -> File<'_>
    requires { (from ≤ end) × (end ≤ length list.words.now) }
    ensures { file_of result ≡ in-edition list.entry.edition (slice from end list.entry.words.now) }
{
    File {
        edition: list.edition,
        words: &list.words[from..end],
    }
}

/// The figures of each recording of a list, bucketed one after the other into the first words of each table, and their totals: six numbers a recording, then
/// six. BadRecord for more than 65,536 recordings or ends that fall or pass the words, then NoRoom for a table of fewer numbers: nothing changes. A recording
/// that is refused counts as that alone. The screen and every lent word are left as the last recording leaves them.
pub fn figures(
    list: Recordings<'_>,
    screen: &mut Screen,
    setup: Setup,
    lent: &mut Lent<'_>,
    table: &mut [u64],
) -> Result<(), Refusal>
    ensures same { SameLent lent.old lent.new }
    ensures figured { answer (answer_number result) (desk (whole screen.new lent.new) table.new)
        ≡ figured (listed_of list.entry) (setup-of setup) (whole screen.old lent.old) table.old }
    ensures refused { IsErr result → tables_in lent.new ≡ tables_in lent.old }
{
    judge(list, table.len())?;
    let mut total = Figures::nothing();
    let mut at = 0;
    for k in 0..list.ends.len() {
        let end = list.ends[k];
        let own = recording_figures(file_in(list, at, end), screen, setup, lent);
        put(table, NUMBERS * k, own);
        total = total.plus(own);
        at = end;
    }
    put(table, NUMBERS * list.ends.len(), total);
    Ok(())
}
