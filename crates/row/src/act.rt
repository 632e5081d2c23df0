//! What is done to one row, and the same done to row r of a screen's three slices: the one place where a row is cut out of them to be written.
ghost use Rattle.std.specs.Prelude.{◌≡◌, ℕ};
ghost use Rattle.rules.specs.Lists.{change};
ghost use Rattle.rules.specs.Commands.{layer-fill};
ghost use Rattle.span.specs.Spans.{tiles};
ghost use Rattle.row.specs.Words.{Words, words, Room, Grown, Ends, put_command, end_buf};
ghost use Rattle.row.specs.Cmds.{Short};
ghost use Rattle.row.specs.Row.{held, Same};
ghost use Rattle.row.specs.Arena.{sizes, cut, Ready};

use crate::rows::place_of;
use crate::words::Row;
use cmd::command::{Fill, RenderCmd};

/// Something that a step does to one row.
pub trait RowAct: Copy {
    // What it makes of a row's words.
    ghost made: { Self → Words → Words };

    // What it asks of itself and of the row, besides room for what it makes.
    ghost Asks: { Self → Words → Type 0 };

    /// Does it; the row has room for what it makes.
    fn on(self, row: &mut Row<'_>)
        requires { Asks self (held row.old) × Room (held row.old) (made self (held row.old)) }
        ensures same { Same row.old row.new }
        ensures row { held row.new ≡ made self (held row.old) }
        ensures grown { Grown (held row.old) (held row.new) };
}

// An act on one row's words.
fn on_words<A: RowAct>(state: &mut [u32], render_cmds: &mut [u32], depth_cmds: &mut [u32], act: A)
    requires asked { A.Asks act (words state.old render_cmds.old depth_cmds.old) }
    requires room { Room (words state.old render_cmds.old depth_cmds.old) (A.made act (words state.old render_cmds.old depth_cmds.old)) }
    ensures row { words state.new render_cmds.new depth_cmds.new ≡ A.made act (words state.old render_cmds.old depth_cmds.old) }
    ensures grown { Grown (words state.old render_cmds.old depth_cmds.old) (words state.new render_cmds.new depth_cmds.new) }
{
    let mut row = Row {
        state,
        render_cmds,
        depth_cmds,
    };
    act.on(&mut row);
}

/// An act on row r, with room for c commands and d depth fills in a row.
pub fn on_row<A: RowAct>(
    state: &mut [u32],
    render_cmds: &mut [u32],
    depth_cmds: &mut [u32],
    c: u32,
    d: u32,
    r: usize,
    act: A,
)
    requires { (n : ℕ) × Ready c d n r (A.Asks act) (A.made act) (words state.old render_cmds.old depth_cmds.old) }
    ensures { (n : ℕ) → Ready c d n r (A.Asks act) (A.made act) (words state.old render_cmds.old depth_cmds.old)
        → cut (sizes c d) n (words state.new render_cmds.new depth_cmds.new) ≡ change (A.made act) r (cut (sizes c d) n (words state.old render_cmds.old depth_cmds.old)) }
{
    let p = place_of(c, d, r);
    on_words(
        &mut state[p.x0..p.x1],
        &mut render_cmds[p.y0..p.y1],
        &mut depth_cmds[p.z0..p.z1],
        act,
    );
}

/// Rule 9: a closing LayerFill.
#[derive(Clone, Copy, Debug, PartialEq, Eq)]
pub struct Close {
    pub fill: Fill,
}

impl RowAct for Close {
    ghost made = { λ a w. put_command (layer-fill (tiles a.fill.span) a.fill.alpha a.fill.attrs_idx) w };

    ghost Asks = { λ a w. Short (tiles a.fill.span) };

    fn on(self, row: &mut Row<'_>) {
        row.push_cmd(RenderCmd::LayerFill(self.fill));
    }
}

/// Rules 9 and 10: a PopBuf.
#[derive(Clone, Copy, Debug, PartialEq, Eq)]
pub struct Pop;

impl RowAct for Pop {
    ghost made = { λ a w. end_buf w };

    ghost Asks = { λ a w. Ends w };

    fn on(self, row: &mut Row<'_>) {
        row.pop_buf();
    }
}
