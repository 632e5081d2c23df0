//! The lines of a row's words: its depth fills, then its commands.
ghost use Rattle.std.specs.Prelude.{◌≡◌, ◌+◌, ◌*◌, ◌≤◌, length, option_map};
ghost use Rattle.sizes.specs.Sizes.{row-size};
ghost use Rattle.rules.specs.Lines.{depth-line, command-line};
ghost use Rattle.cmd.specs.Commands.{command};
ghost use Rattle.cmd.specs.DepthFills.{depth-fill};
ghost use Rattle.text.specs.Texts.{Writes};
ghost use Rattle.text.specs.Listed.{depth-fill-at, command-at, shown, depth-lines, command-lines, row-lines, text_of, good-depths, good-commands, good_row, ListedRow};

use crate::lines::RowHead;
use crate::{Out, Print};
use cmd::command::{CmdWords, RenderCmd};
use cmd::depth_fill::{DepthFill, DepthWords};
use sizes::{DEPTHS, RENDERS};

// The two words at place k.
fn read_depth(depth_cmds: &[u32], k: usize, buckets: u32) -> Option<DepthFill>
    requires { 2 * k + 2 ≤ length depth_cmds.now }
    ensures { option_map depth-fill result ≡ depth-fill-at buckets depth_cmds.now k }
{
    DepthWords::at(depth_cmds, k).read(buckets)
}

// The four words at place k.
fn read_command(render_cmds: &[u32], k: usize) -> Option<RenderCmd>
    requires { 4 * k + 4 ≤ length render_cmds.now }
    ensures { option_map command result ≡ command-at render_cmds.now k }
{
    CmdWords::at(render_cmds, k).read()
}

// Words stand for each of the first n depth fills.
fn are_depths(depth_cmds: &[u32], n: usize, buckets: u32) -> bool
    requires { 2 * n ≤ length depth_cmds.now }
    ensures { result ≡ good-depths buckets depth_cmds.now n }
{
    (0..n).all(|k| read_depth(depth_cmds, k, buckets).is_some())
}

// .. and for each of the first n commands.
fn are_commands(render_cmds: &[u32], n: usize) -> bool
    requires { 4 * n ≤ length render_cmds.now }
    ensures { result ≡ good-commands render_cmds.now n }
{
    (0..n).all(|k| read_command(render_cmds, k).is_some())
}

// The line of the depth fill at place k, if words stand for one.
fn print_depth(out: &mut Out<'_>, depth_cmds: &[u32], k: usize, buckets: u32)
    requires { 2 * k + 2 ≤ length depth_cmds.now }
    ensures { Writes (text_of (shown depth-line (depth-fill-at buckets depth_cmds.now k))) out.old out.new }
{
    if let Some(fill) = read_depth(depth_cmds, k, buckets) {
        fill.print(out);
    }
}

// The line of the command at place k.
fn print_command(out: &mut Out<'_>, render_cmds: &[u32], k: usize)
    requires { 4 * k + 4 ≤ length render_cmds.now }
    ensures { Writes (text_of (shown command-line (command-at render_cmds.now k))) out.old out.new }
{
    if let Some(cmd) = read_command(render_cmds, k) {
        cmd.print(out);
    }
}

// The first n depth fills.
fn print_depths(out: &mut Out<'_>, depth_cmds: &[u32], n: usize, buckets: u32)
    requires { 2 * n ≤ length depth_cmds.now }
    ensures { Writes (text_of (depth-lines buckets depth_cmds.now n)) out.old out.new }
{
    for k in 0..n {
        print_depth(out, depth_cmds, k, buckets);
    }
}

// The first n commands.
fn print_commands(out: &mut Out<'_>, render_cmds: &[u32], n: usize)
    requires { 4 * n ≤ length render_cmds.now }
    ensures { Writes (text_of (command-lines render_cmds.now n)) out.old out.new }
{
    for k in 0..n {
        print_command(out, render_cmds, k);
    }
}

/// A row by its words: row `row` of a screen, with so many buckets.
#[derive(Clone, Copy)]
pub struct RowText<'a> {
    pub row: u32,
    pub buckets: u32,
    pub state: &'a [u32],
    pub render_cmds: &'a [u32],
    pub depth_cmds: &'a [u32],
}

impl RowText<'_> {
    ghost use Rattle.text.specs.Printed.{row_words};

    /// Answer 4: a row with room for c commands and d depth fills.
    #[tactic(auto, unfolding(crate::specs::Listed::good_row))]
    pub fn is_good(&self, c: u32, d: u32) -> bool
        requires { (length self.now.state.now ≡ row-size) × (length self.now.render_cmds.now ≡ 4 * c) × (length self.now.depth_cmds.now ≡ 2 * d) }
        ensures { result ≡ good_row c d self.now.buckets (row_words self.now) }
    {
        let renders = self.state[RENDERS];
        let depths = self.state[DEPTHS];
        renders <= c
            && depths <= d
            && are_depths(self.depth_cmds, depths as usize, self.buckets)
            && are_commands(self.render_cmds, renders as usize)
    }
}

impl Print for RowText<'_> {
    ghost use Rattle.text.specs.Printed.{row_words};

    ghost printed = { λ r. text_of (row-lines r.buckets r.row (row_words r)) };

    ghost ready = { λ r. ListedRow (row_words r) };

    fn print(&self, out: &mut Out<'_>) {
        let renders = self.state[RENDERS];
        let depths = self.state[DEPTHS];
        RowHead {
            row: self.row,
            depths,
            renders,
        }
        .print(out);
        print_depths(out, self.depth_cmds, depths as usize, self.buckets);
        print_commands(out, self.render_cmds, renders as usize);
    }
}
