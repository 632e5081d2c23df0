//! Theorems about the programs' texts: the text of a recording's rows and of its painted rows is the rules' text of them. What a function here
//! promises is a theorem, and it does nothing else.
#![tactic(auto)]

ghost use Rattle.theorem_text.specs.Printed.{AttrsPrinted, DetailsParts, FilePrinted, HeldBegun, HeldListed, OthersWait, PlayEnded, ReachedListed, ReachedWaits, RowWhole, RowsParts, TablesUntold, WaitingPrinted, WordsLeave, WordsPrinted, WordsSmall};

/// What `rowlist` prints is what the rules say.
pub fn rows_print_as_the_rules_say()
    ensures held { HeldListed }
    ensures reached { ReachedListed }
    ensures words { WordsPrinted }
    ensures files { FilePrinted }
    ensures untold { TablesUntold }
    ensures left { WordsLeave }
{}

/// So is what `rowdump` prints after it: the attributes, then each row, in their order.
pub fn details_print_as_the_rules_say()
    ensures words { WordsSmall }
    ensures ended { PlayEnded }
    ensures attrs { AttrsPrinted }
    ensures parts { DetailsParts }
    ensures rows { RowsParts }
{}

/// A row waits once painting has begun, and its text is the rules' text of it, painted to its end.
pub fn painted_rows_print_as_the_rules_say()
    ensures begun { HeldBegun }
    ensures waits { ReachedWaits }
    ensures others { OthersWait }
    ensures printed { WaitingPrinted }
    ensures whole { RowWhole }
{}
