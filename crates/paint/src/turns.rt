//! What rows painted by one call are, by calls for single rows. The function here does nothing, and nothing calls it.
ghost use Rattle.paint.specs.RowTurns.{InParts, OneRow};

/// Rows painted by one call are those that are done, and by a further call those behind them; one row so is its own call.
pub fn rows_are_single_rows()
    ensures parts { InParts }
    ensures one { OneRow }
{}
