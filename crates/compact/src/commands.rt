//! A row's render commands: judged, and closed up over those that nothing will ever show.
ghost use Rattle.std.specs.Prelude.{◌≡◌, Some, ℕ, ◌+◌, ◌-◌, ◌*◌, ◌≤◌, List, ◌++◌, length, take, replicate, option_map, is_some};
ghost use Rattle.sizes.specs.Widths.{bucket-tiles};
ghost use Rattle.rules.specs.Commands.{Command};
ghost use Rattle.cmd.specs.Commands.{read-words};
ghost use Rattle.paint.specs.Reading.{attrs_of};
ghost use Rattle.compact.specs.Reading.{good-command, commands-from};
ghost use Rattle.compact.specs.Passing.{kind-of, fill-kind, GoodKind, packed, kept-at, popped, taken, Closed};

use crate::hidden::is_hidden;
use cmd::command::{CmdWords, RenderCmd};
use paint::command::{Attributes, Mark};
use sizes::width::Width;
use span::TileSpan;

/// What a command is to the pass: a fill, with its tiles and its attribute's id, or a buffer that begins or ends.
#[derive(Clone, Copy, Debug, PartialEq, Eq)]
pub enum Kind {
    Fill(TileSpan, u32),
    Push,
    Pop,
}

// Of a fill, whose attribute says this.
fn fill_kind(span: TileSpan, mark: Option<Mark>) -> Option<Kind>
    ensures { result ≡ fill-kind span mark }
{
    match mark {
        None => None,
        Some(mark) => Some(Kind::Fill(span, mark.id)),
    }
}

/// Of a command's words; none where they are no command's, or name an attribute that is not there or not good.
pub fn look(words: CmdWords, attrs: &Attributes<'_>) -> Option<Kind>
    ensures { result ≡ option_map (kind-of (attrs_of attrs.now)) (good-command (attrs_of attrs.now) (read-words words)) }
{
    let Some(cmd) = words.read() else {
        return None;
    };
    match cmd {
        RenderCmd::PaintFill(fill) => fill_kind(fill.span, attrs.paint(fill.attrs_idx)),
        RenderCmd::LayerFill(fill) => fill_kind(fill.span, attrs.layer(fill.attrs_idx)),
        RenderCmd::PushBuf(_) => Some(Kind::Push),
        RenderCmd::PopBuf => Some(Kind::Pop),
    }
}

/// Whether the first `count` commands are commands, and each attribute that they name is there and good.
pub fn is_good_commands(render_cmds: &[u32], count: usize, attrs: &Attributes<'_>) -> bool
    requires { 4 * count ≤ length render_cmds.now }
    ensures { result ≡ is_some (commands-from (attrs_of attrs.now) render_cmds.now 0 count) }
{
    let mut k: usize = 0;
    while k < count {
        if look(CmdWords::at(render_cmds, k), attrs).is_none() {
            return false;
        }
        k += 1;
    }
    true
}

// The words put behind the first `left` commands; how many there are then.
fn keep(render_cmds: &mut [u32], left: usize, words: CmdWords) -> usize
    requires { 4 * left + 4 ≤ length render_cmds.old }
    ensures { packed render_cmds.new result ≡ kept-at words (packed render_cmds.old left) }
{
    words.put(render_cmds, left);
    left + 1
}

// A buffer ends: with one that begins directly before it, it goes; else it is put behind.
fn pop(render_cmds: &mut [u32], left: usize, words: CmdWords) -> usize
    requires { 4 * left + 4 ≤ length render_cmds.old }
    ensures { packed render_cmds.new result ≡ popped words (packed render_cmds.old left) }
{
    if 0 < left {
        let tag = render_cmds[4 * (left - 1)];
        if tag == 5 || tag == 6 {
            return left - 1;
        }
    }
    keep(render_cmds, left, words)
}

// One command more, behind the first `left` that were kept.
fn take(
    render_cmds: &mut [u32],
    left: usize,
    words: CmdWords,
    kind: Kind,
    ids: &[u32],
    width: Width,
) -> usize
    requires room { 4 * left + 4 ≤ length render_cmds.old }
    requires good { GoodKind kind }
    ensures { packed render_cmds.new result ≡ taken (bucket-tiles width) ids.now words kind (packed render_cmds.old left) }
{
    match kind {
        Kind::Fill(span, id) => {
            if is_hidden(ids, span, id, width) {
                return left;
            }
            keep(render_cmds, left, words)
        }
        Kind::Push => keep(render_cmds, left, words),
        Kind::Pop => pop(render_cmds, left, words),
    }
}

// All words behind the first `left` commands become 0.
fn clear_behind(render_cmds: &mut [u32], left: usize)
    requires { 4 * left ≤ length render_cmds.old }
    ensures { render_cmds.new ≡ take (4 * left) render_cmds.old ++ replicate (length render_cmds.old - 4 * left) 0 }
{
    render_cmds[4 * left..].fill(0);
}

/// The first `count` commands without those that nothing will ever show, `ids` being the row's newest ids: what is left closes up in its order, and what stands
/// behind it becomes 0. How many are left.
pub fn close_up(
    render_cmds: &mut [u32],
    count: usize,
    attrs: &Attributes<'_>,
    ids: &[u32],
    width: Width,
) -> usize
    requires room { 4 * count ≤ length render_cmds.old }
    requires good { (cs : List Command) × (commands-from (attrs_of attrs.now) render_cmds.old 0 count ≡ Some cs) }
    ensures few { result ≤ count }
    ensures closed { (cs : List Command) → commands-from (attrs_of attrs.now) render_cmds.old 0 count ≡ Some cs
        → Closed (bucket-tiles width) (attrs_of attrs.now) ids.now cs render_cmds.old render_cmds.new result }
{
    let mut left: usize = 0;
    let mut k: usize = 0;
    while k < count {
        let words = CmdWords::at(render_cmds, k);
        let Some(kind) = look(words, attrs) else {
            unreachable!()
        };
        left = take(render_cmds, left, words, kind, ids, width);
        k += 1;
    }
    clear_behind(render_cmds, left);
    left
}
