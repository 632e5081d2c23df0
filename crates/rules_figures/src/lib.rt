//! A month's figures as definitions: what the depth stage saves of a recording, in tiles, commands and depth fills. What a function here promises is a theorem
//! about the rules, and it does nothing else.
#![tactic(auto)]

ghost use Rattle.rules_figures.specs.Accounted.{Asked-accounted, Asked-plain, Figures-read, Figures-small, Files-accounted, Hidden-dropped, Painted-pieces, Totals-accounted, Totals-small};
ghost use Rattle.rules_figures.specs.Cases.{FiguresHold};

/// What is read off a screen's rows is what its history asked for, what its pieces cover and what the picture leaves out; every tile that was asked for is
/// painted or hidden, of each recording and in total; and the numbers are small.
pub fn figures_account_for_every_tile()
    ensures asked { Asked-plain }
    ensures painted { Painted-pieces }
    ensures hidden { Hidden-dropped }
    ensures read { Figures-read }
    ensures accounted { Asked-accounted }
    ensures small { Figures-small }
    ensures totals { Totals-accounted }
    ensures small_totals { Totals-small }
    ensures files { Files-accounted }
{}

/// The figures of histories that are counted by hand, of the worked example, of refused files, and in total.
pub fn figures_hold_at_known_points()
    ensures { FiguresHold }
{}
