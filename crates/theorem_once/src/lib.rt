//! Theorems: each public call has one answer. A function here makes a call twice, and promises that equal arguments give equal answers: the results, the
//! screens' numbers and every lent word. What goes by value goes to both calls; what is lent, read or written, is lent to each apart, as `a` and as `b`: a
//! struct where it is much. The screens, the words and the records are any. Nothing calls these functions.
#![tactic(auto)]

pub mod border;
pub mod building;
pub mod painting;
pub mod reading;
pub mod recordings;
pub mod runs;
pub mod texts;

/// What a call gave, and what the second gave.
pub type Twice<T> = (T, T);
