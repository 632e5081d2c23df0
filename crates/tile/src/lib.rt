//! One tile in plain draw order: what each step of a recording says of it, why it shows what it shows (docs/RULES.md, Why a tile shows what it shows), and
//! its list without rows (docs/RULES.md, A tile's list without rows). `why` and `list_tile` are public calls; the others are parts of them. `tell_tile`,
//! `is_off_screen` and `reason_of` are also those of a program that asks of many attributes at once.
#![tactic(auto)]

pub mod call;
pub mod list;
pub mod reason;
pub mod steps;
pub mod story;

pub use call::{is_off_screen, tell_tile, why};
pub use list::list_tile;
pub use reason::{Asked, Reason, reason_of};
pub use steps::Tale;
