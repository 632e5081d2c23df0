//! Theorems: what the depth stage saves of a recording is what its history, its screen and its picture say; every tile is accounted for, and a list of recordings adds
//! up. What a function here promises is a theorem, and it does nothing else.
#![tactic(auto)]

ghost use Rattle.theorem_figures.specs.Recorded.{Asked-plain, Figures-lent, Figures-own, Hidden-dropped, Painted-pieces, Refused-alone, Rows-hold, Screen-left};
ghost use Rattle.theorem_figures.specs.Called.{Call-kept, Call-told};
ghost use Rattle.theorem_figures.specs.Listed.{Last-left, Lines-accounted, Lines-small, None-left, One-each, Sums-small};

/// An accepted recording leaves the words of the rules' screen that its history builds, and each of its figures is what the rules say of that history and that
/// screen; a refused one counts as that alone. They depend on the words before by how many there are alone, and not at all where there are enough.
pub fn recordings_are_counted_by_their_history()
    ensures left { Screen-left }
    ensures asked { Asked-plain }
    ensures painted { Painted-pieces }
    ensures hidden { Hidden-dropped }
    ensures held { Rows-hold }
    ensures refused { Refused-alone }
    ensures lent { Figures-lent }
    ensures own { Figures-own }
{}

/// Of every list of recordings, each on the screen and the words that the one before has left: a line for each, every tile accounted for in each line and in the
/// totals, all numbers small; the screen and the words afterwards are those that the last has left.
pub fn lists_of_recordings_add_up()
    ensures lines { One-each }
    ensures accounted { Lines-accounted }
    ensures small { Lines-small }
    ensures small_totals { Sums-small }
    ensures none { None-left }
    ensures last { Last-left }
{}

/// What the call over a list does: done, the table begins with the lines and the totals, what stood behind them stays, and there are no more recordings than the
/// numbers have room for; refused, nothing changes.
pub fn calls_fill_the_table()
    ensures told { Call-told }
    ensures kept { Call-kept }
{}
