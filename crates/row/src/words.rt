//! One row over its own words (bucketer.rs, RowState). Parts: each function has a `requires`, which its callers have judged. They know one row and not its
//! place on the screen.
ghost use Rattle.std.specs.Prelude.{◌≡◌, ◌≤◌, ◌<◌, length, get_or};
ghost use Rattle.sizes.specs.Sizes.{tile-end, most-layers, most-room, row-size, renders-at, levels-at};
ghost use Rattle.rules.specs.Spans.{span};
ghost use Rattle.rules.specs.Commands.{span-word, paint-fill, layer-fill};
ghost use Rattle.cmd.specs.DepthFills.{depth-fill};
ghost use Rattle.span.specs.Spans.{tiles, buckets};
ghost use Rattle.sizes.specs.Widths.{bucket-tiles};
ghost use Rattle.cmd.specs.Commands.{command};
ghost use Rattle.rules.specs.Rows.{adds};
ghost use Rattle.row.specs.Cmds.{Short, ShortCmd};
ghost use Rattle.row.specs.Words.{words, hull_word, include_span, include-adds, put_command, put_buf, end_buf, put_depth, Room, Ends};
ghost use Rattle.row.specs.Row.{held, Same};

use cmd::command::{Fill, RenderCmd, SpanWord};
use cmd::depth_fill::DepthFill;
use sizes::width::Width;
use sizes::{DEPTHS, END, FIRST, LARGEST, LEVEL, LEVEL_BASE, LEVELS, RENDERS};
use span::TileSpan;

/// One row's words, lent: its record (`state`), its render commands, its depth fills.
#[derive(Drop)]
pub struct Row<'a> {
    pub state: &'a mut [u32],
    pub render_cmds: &'a mut [u32],
    pub depth_cmds: &'a mut [u32],
}

// The span word of a union that grows; the tag 6 says that there is one already.
#[tactic(auto, unfolding(crate::specs::Words::hull_word))]
fn hull_word(tag: u32, span: u32, first: u32, end: u32) -> u32
    requires first { first ≤ tile-end }
    requires last { «end» ≤ tile-end }
    ensures { result ≡ hull_word tag span first «end» }
{
    if tag == 6 {
        SpanWord(span).union(first, end).0
    } else {
        SpanWord::of(first, end).0
    }
}

// Rule 10: a fill counts for the innermost level, if the row has one.
#[tactic(auto, unfolding(crate::specs::Words::include_span))]
fn include_current_span(state: &mut [u32], first: u32, end: u32)
    requires long { length state.old ≡ row-size }
    requires levels { get_or state.old levels-at 0 ≤ most-layers }
    requires tiles { (first ≤ tile-end) × («end» ≤ tile-end) }
    ensures { state.new ≡ include_span first «end» state.old }
{
    let k = state[LEVELS] as usize;
    if k == 0 {
        return;
    }
    let at = LEVEL_BASE + LEVEL * k;
    let tag = state[at + 1];
    let span = state[at + 2];
    state[at + 1] = 6;
    state[at + 2] = hull_word(tag, span, first, end);
}

// Rule 10: a fill's span counts for the innermost level; a buffer has none.
fn include_fill(state: &mut [u32], cmd: RenderCmd)
    requires long { length state.old ≡ row-size }
    requires levels { get_or state.old levels-at 0 ≤ most-layers }
    requires short { ShortCmd cmd }
    ensures { state.new ≡ include-adds (adds (command cmd)) state.old }
{
    match cmd {
        RenderCmd::PaintFill(fill) | RenderCmd::LayerFill(fill) => {
            include_current_span(state, fill.span.first, fill.span.end);
        }
        RenderCmd::PushBuf(_) | RenderCmd::PopBuf => {}
    }
}

impl Row<'_> {
    /// A command (push_cmd); a fill's span counts for the innermost level (rule 10).
    #[tactic(auto, unfolding(crate::specs::Words::put_command))]
    pub fn push_cmd(&mut self, cmd: RenderCmd)
        requires short { ShortCmd cmd }
        requires room { Room (held self.old) (put_command (command cmd) (held self.old)) }
        ensures same { Same self.old self.new }
        ensures row { held self.new ≡ put_command (command cmd) (held self.old) }
    {
        let n = self.state[RENDERS];
        include_fill(self.state, cmd);
        cmd.words().put(self.render_cmds, n as usize);
        self.state[RENDERS] = n + 1;
    }

    /// A PaintFill of a span of tiles, with the place of its paint attribute (push_cmd).
    pub fn push_paint(&mut self, span: TileSpan, alpha: Option<u32>, attrs_idx: u32)
        requires { Short (tiles span) × Room (held self.old) (put_command (paint-fill (tiles span) alpha attrs_idx) (held self.old)) }
        ensures same { Same self.old self.new }
        ensures row { held self.new ≡ put_command (paint-fill (tiles span) alpha attrs_idx) (held self.old) }
    {
        self.push_cmd(RenderCmd::PaintFill(Fill {
            span,
            alpha,
            attrs_idx,
        }));
    }

    /// Rule 5 (push_buf): a PushBuf, one level more. Its span is none so far.
    #[tactic(auto, using(crate::proofs::WordsLaws::buf_room), unfolding(crate::specs::Words::put_buf, rules::specs::Commands::command_words))]
    pub fn push_buf(&mut self)
        requires { (get_or self.old.state.now levels-at 0 < most-layers) × Room (held self.old) (put_buf (held self.old)) }
        ensures same { Same self.old self.new }
        ensures row { held self.new ≡ put_buf (held self.old) }
    {
        let n = self.state[RENDERS];
        let k = self.state[LEVELS] + 1;
        RenderCmd::PushBuf(None)
            .words()
            .put(self.render_cmds, n as usize);
        let at = LEVEL_BASE + LEVEL * k as usize;
        self.state[at] = n;
        self.state[at + 1] = 5;
        self.state[at + 2] = 0;
        self.state[LEVELS] = k;
        self.state[RENDERS] = n + 1;
    }

    /// Rules 9 and 10 (pop_buf): a PopBuf; the innermost level's PushBuf gets its span, and the level's words become 0.
    #[tactic(auto, using(crate::proofs::WordsLaws::end_room), unfolding(crate::specs::Words::end_buf, rules::specs::Commands::command_words))]
    pub fn pop_buf(&mut self)
        requires ends { Ends (held self.old) }
        requires room { Room (held self.old) (end_buf (held self.old)) }
        ensures same { Same self.old self.new }
        ensures row { held self.new ≡ end_buf (held self.old) }
    {
        let n = self.state[RENDERS];
        let k = self.state[LEVELS];
        let at = LEVEL_BASE + LEVEL * k as usize;
        let p = 4 * self.state[at] as usize;
        self.render_cmds[p] = self.state[at + 1];
        self.render_cmds[p + 1] = self.state[at + 2];
        RenderCmd::PopBuf.words().put(self.render_cmds, n as usize);
        self.state[at] = 0;
        self.state[at + 1] = 0;
        self.state[at + 2] = 0;
        self.state[LEVELS] = k - 1;
        self.state[RENDERS] = n + 1;
    }

    /// Rule 7 (push_depth_fill): a depth fill; the row's summary takes in its tiles and its id.
    #[tactic(auto, using(crate::proofs::WordsLaws::fill_room), unfolding(crate::specs::Words::put_depth))]
    pub fn push_depth_fill(&mut self, cmd: DepthFill, draw_id: u32, width: Width)
        requires { Short (buckets cmd.buckets) × Room (held self.old) (put_depth (bucket-tiles width) (depth-fill cmd) draw_id (held self.old)) }
        ensures same { Same self.old self.new }
        ensures row { held self.new ≡ put_depth (bucket-tiles width) (depth-fill cmd) draw_id (held self.old) }
    {
        let two = cmd.words();
        let range = cmd.buckets;
        let low = width.times(range.first);
        let high = width.times(range.end);
        let n = self.state[DEPTHS];
        let first = if n == 0 {
            low
        } else {
            self.state[FIRST].min(low)
        };
        let end = self.state[END].max(high);
        let largest = self.state[LARGEST].max(draw_id);
        self.state[FIRST] = first;
        self.state[END] = end;
        self.state[LARGEST] = largest;
        self.state[DEPTHS] = n + 1;
        let at = 2 * n as usize;
        self.depth_cmds[at] = two.span.0;
        self.depth_cmds[at + 1] = two.attrs_idx;
    }
}
