//! What a list of fills is, by single fills. The function here does nothing, and nothing calls it.
ghost use Rattle.fill.specs.Turns.{EachInTurn, DoneOnes, TurnPoints};

/// A list of fills is its single fills in order, up to the first that is refused: number and what is left; those that are done leave what it leaves; cases.
pub fn lists_are_single_fills()
    ensures each { EachInTurn }
    ensures done { DoneOnes }
    ensures points { TurnPoints }
{}
