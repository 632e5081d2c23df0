//! Commands, depth fills, blends and attributes (cmd.rs), painted pieces, and the words that stand for them. Parts: what a function asks, its callers have judged.
#![tactic(auto)]

ghost use Rattle.cmd.specs.ReadBack.{CommandsReadBack, CommandsWrittenBack, DepthFillsReadBack, DepthFillsWrittenBack};

mod answers;
pub mod attrs;
pub mod blend;
pub mod command;
pub mod depth_fill;
pub mod piece;

/// A command is read back from its words, and its words are written back; so are a depth fill's. It does nothing: what it promises is a theorem.
pub fn words_keep_commands()
    ensures commands_read { CommandsReadBack }
    ensures commands_written { CommandsWrittenBack }
    ensures depth_fills_read { DepthFillsReadBack }
    ensures depth_fills_written { DepthFillsWrittenBack }
{}
