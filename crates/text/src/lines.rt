//! The lines that `rowlist` prints, each with its line feed.
ghost use Rattle.std.specs.Prelude.{option_map};
ghost use Rattle.rules.specs.Lines.{header, row, refused, depth-line, command-line, fill-bytes, span-bytes, line-text, line-bytes};
ghost use Rattle.span.specs.Spans.{tiles};
ghost use Rattle.cmd.specs.Commands.{command};
ghost use Rattle.cmd.specs.DepthFills.{depth-fill};
ghost use Rattle.text.specs.Texts.{Writes};

use crate::{Out, Print};
use cmd::command::{Fill, RenderCmd};
use cmd::depth_fill::DepthFill;
use span::TileSpan;

/// A screen's: its rows, the buckets in each, the ids that are taken.
#[derive(Clone, Copy, Debug, PartialEq, Eq)]
pub struct Header {
    pub rows: u32,
    pub buckets: u32,
    pub ids: u32,
}

/// A row's: its number, and how many depth fills and commands it has.
#[derive(Clone, Copy, Debug, PartialEq, Eq)]
pub struct RowHead {
    pub row: u32,
    pub depths: u32,
    pub renders: u32,
}

/// A refusal's, by its number.
#[derive(Clone, Copy, Debug, PartialEq, Eq)]
pub struct Refused {
    pub number: u32,
}

impl Print for Header {
    ghost printed = { λ h. line-bytes (header h.rows h.buckets h.ids) };

    fn print(&self, out: &mut Out<'_>) {
        out.text(b"rows");
        out.number(self.rows);
        out.text(b" buckets");
        out.number(self.buckets);
        out.text(b" ids");
        out.number(self.ids);
        out.byte(b'\n');
    }
}

impl Print for RowHead {
    ghost printed = { λ h. line-bytes (row h.row h.depths h.renders) };

    fn print(&self, out: &mut Out<'_>) {
        out.text(b"row");
        out.number(self.row);
        out.text(b" depth");
        out.number(self.depths);
        out.text(b" render");
        out.number(self.renders);
        out.byte(b'\n');
    }
}

impl Print for Refused {
    ghost printed = { λ r. line-bytes (refused r.number) };

    fn print(&self, out: &mut Out<'_>) {
        out.text(b"refused");
        out.number(self.number);
        out.byte(b'\n');
    }
}

impl Print for DepthFill {
    ghost printed = { λ fill. line-bytes (depth-line (depth-fill fill)) };

    fn print(&self, out: &mut Out<'_>) {
        out.byte(b'D');
        out.number(self.buckets.first);
        out.number(self.buckets.end);
        out.number(self.attrs_idx);
        out.byte(b'\n');
    }
}

impl Out<'_> {
    // What a P and an L have in common.
    fn fill(&mut self, fill: Fill)
        ensures { Writes (fill-bytes fill.span.first fill.span.end fill.alpha fill.attrs_idx) self.old self.new }
    {
        self.number(fill.span.first);
        self.number(fill.span.end);
        self.alpha(fill.alpha);
        self.number(fill.attrs_idx);
    }

    // A buffer's span, or two dashes.
    fn recorded(&mut self, recorded: Option<TileSpan>)
        ensures { Writes (span-bytes (option_map tiles recorded)) self.old self.new }
    {
        match recorded {
            None => self.text(b" - -"),
            Some(span) => {
                self.number(span.first);
                self.number(span.end);
            }
        }
    }

    // A command without its line feed.
    fn command(&mut self, cmd: RenderCmd)
        ensures { Writes (line-text (command-line (command cmd))) self.old self.new }
    {
        match cmd {
            RenderCmd::PaintFill(fill) => {
                self.byte(b'P');
                self.fill(fill);
            }
            RenderCmd::LayerFill(fill) => {
                self.byte(b'L');
                self.fill(fill);
            }
            RenderCmd::PushBuf(recorded) => {
                self.byte(b'B');
                self.recorded(recorded);
            }
            RenderCmd::PopBuf => self.byte(b'E'),
        }
    }
}

impl Print for RenderCmd {
    ghost printed = { λ cmd. line-bytes (command-line (command cmd)) };

    fn print(&self, out: &mut Out<'_>) {
        out.command(*self);
        out.byte(b'\n');
    }
}
