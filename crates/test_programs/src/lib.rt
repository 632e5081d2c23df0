//! Tests of what no contract says of the programs' reading and writing: a failure comes only after a call that failed, a call that a signal interrupted is
//! made again, a short write goes on, the input's end ends reading. And each program's `run` over arguments, and over readers and writers that fail: its
//! text is the original's, stored beside the programs.
#![tactic(auto)]

#[cfg(test)]
mod editions;
#[cfg(test)]
mod fakes;
#[cfg(test)]
mod figures;
#[cfg(test)]
mod programs;
#[cfg(test)]
mod runs;
#[cfg(test)]
mod tests;
#[cfg(test)]
mod usages;
