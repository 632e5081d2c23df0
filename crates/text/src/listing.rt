//! The lines of a screen's words, as text. `list_screen` and `refusal_line` are public calls; the others are their parts.
ghost use Rattle.std.specs.Prelude.{◌≡◌, ◌+◌, ◌*◌, ◌≤◌, ◌<◌, ◌^◌, ◌++◌, length, drop};
ghost use Rattle.sizes.specs.Sizes.{most-room, most-rows};
ghost use Rattle.sizes.specs.Refusals.{answer_number};
ghost use Rattle.rules.specs.Boxes.{rows_of};
ghost use Rattle.rect.specs.Rects.{box_of};
ghost use Rattle.row.specs.Words.{words};
ghost use Rattle.row.specs.Arena.{sizes, row_at, Arenas};
ghost use Rattle.row.specs.Rows.{all-held};
ghost use Rattle.text.specs.Listed.{screen-lines, text_of, good_row, good-rows, row_room, list-number, left, written, listed, refused-listed};

use crate::lines::{Header, Refused};
use crate::rows::RowText;
use crate::{Out, Print};
use row::{Rows, part};
use screen::{Screen, judge_screen};
use sizes::ROW;
use sizes::answers::Refusal;

// A line's bytes at most.
const LINE: usize = 64;

// A screen with its words.
#[derive(Clone, Copy)]
struct ScreenText<'a> {
    screen: Screen,
    state: &'a [u32],
    render_cmds: &'a [u32],
    depth_cmds: &'a [u32],
}

impl ScreenText<'_> {
    ghost use Rattle.text.specs.Printed.{row_words, screen_words};

    // Row r, of a screen that has so many buckets.
    fn row(&self, r: usize, buckets: u32) -> RowText<'_>
        requires arenas { Arenas self.now.screen.c self.now.screen.d (rows_of (box_of self.now.screen.viewport)) (screen_words self.now) }
        requires within { r < rows_of (box_of self.now.screen.viewport) }
        ensures row { result.row ≡ r }
        ensures buckets { result.buckets ≡ buckets }
        ensures words { row_words result ≡ row_at (sizes self.now.screen.c self.now.screen.d) r (screen_words self.now) }
    {
        let screen = self.screen;
        RowText {
            row: r as u32,
            buckets,
            state: part(self.state, ROW, r),
            render_cmds: part(self.render_cmds, 4 * screen.c as usize, r),
            depth_cmds: part(self.depth_cmds, 2 * screen.d as usize, r),
        }
    }

    // Answer 4: row r.
    fn is_good_row(&self, r: usize, buckets: u32) -> bool
        requires arenas { Arenas self.now.screen.c self.now.screen.d (rows_of (box_of self.now.screen.viewport)) (screen_words self.now) }
        requires within { r < rows_of (box_of self.now.screen.viewport) }
        ensures { result
            ≡ good_row self.now.screen.c self.now.screen.d buckets (row_at (sizes self.now.screen.c self.now.screen.d) r (screen_words self.now)) }
    {
        self.row(r, buckets).is_good(self.screen.c, self.screen.d)
    }

    // Answer 4: all m rows.
    fn are_good_rows(&self, m: usize, buckets: u32) -> bool
        requires { Arenas self.now.screen.c self.now.screen.d m (screen_words self.now) × (m ≡ rows_of (box_of self.now.screen.viewport)) }
        ensures { result ≡ good-rows self.now.screen.c self.now.screen.d buckets (screen_words self.now) m }
    {
        (0..m).all(|r| self.is_good_row(r, buckets))
    }

    // 2, 1 and 4.
    fn judge(&self) -> Result<(), Refusal>
        ensures { answer_number result ≡ list-number self.now.screen (screen_words self.now) }
    {
        let screen = self.screen;
        judge_screen(
            screen,
            self.state.len(),
            self.render_cmds.len(),
            self.depth_cmds.len(),
        )?;
        if !self.are_good_rows(screen.rows(), screen.buckets() as u32) {
            return Err(Refusal::BadRecord);
        }
        Ok(())
    }
}

impl Print for ScreenText<'_> {
    ghost use Rattle.text.specs.Printed.{screen_words};

    ghost printed = { λ s. text_of (screen-lines s.screen (screen_words s)) };

    ghost ready = { λ s. list-number s.screen (screen_words s) ≡ 0 };

    fn print(&self, out: &mut Out<'_>) {
        let screen = self.screen;
        let rows = screen.rows();
        let buckets = screen.buckets() as u32;
        Header {
            rows: rows as u32,
            buckets,
            ids: screen.next_draw_id - 1,
        }
        .print(out);
        for r in 0..rows {
            self.row(r, buckets).print(out);
        }
    }
}

// What the text of m rows has at most.
fn screen_room(m: usize, c: u32, d: u32) -> usize
    requires { (m ≤ most-rows) × (c ≤ most-room) × (d ≤ most-room) }
    ensures { result ≡ 64 + m * row_room c d }
{
    LINE + m * (LINE * (1 + (c as usize + d as usize)))
}

// How many bytes an item prints: it is printed on none.
fn length_of<T: Print>(item: &T) -> usize
    requires ready { T.ready item.now }
    requires below { length (T.printed item.now) < 2 ^ 64 }
    ensures { result ≡ length (T.printed item.now) }
{
    let mut none = Out {
        bytes: &mut [],
        at: 0,
    };
    item.print(&mut none);
    none.at
}

/// What an item prints, put at the start of the bytes; how many it has.
pub fn print_first<T: Print>(item: &T, out: &mut [u8]) -> usize
    requires ready { T.ready item.now }
    requires within { length (T.printed item.now) ≤ length out.old }
    ensures value { result ≡ length (T.printed item.now) }
    ensures out_after { out.new ≡ T.printed item.now ++ drop (length (T.printed item.now)) out.old }
{
    let mut text = Out { bytes: out, at: 0 };
    item.print(&mut text);
    text.at
}

/// The same, or 14 where the bytes are fewer, and they stay. `most`: what it prints at most, so that it is measured only where there is less room.
pub fn try_print_first<T: Print>(item: &T, most: usize, out: &mut [u8]) -> Result<usize, Refusal>
    requires ready { T.ready item.now }
    requires within { length (T.printed item.now) ≤ most }
    ensures { left result out.new ≡ written (T.printed item.now) out.old }
{
    if out.len() < most && out.len() < length_of(item) {
        return Err(Refusal::NoRoom);
    }
    Ok(print_first(item, out))
}

/// The text of a screen: the header, then each row with its depth fills and commands, as stored. How many bytes it has, at the start of the lent ones; 2, 1
/// or 4 where the screen or the rows' words are bad, 14 where the bytes are too few, and they stay.
pub fn list_screen(screen: Screen, rows: &Rows<'_>, out: &mut [u8]) -> Result<usize, Refusal>
    ensures { left result out.new ≡ listed screen (all-held rows.now) out.old }
{
    let text = ScreenText {
        screen,
        state: rows.state,
        render_cmds: rows.render_cmds,
        depth_cmds: rows.depth_cmds,
    };
    text.judge()?;
    try_print_first(&text, screen_room(screen.rows(), screen.c, screen.d), out)
}

/// The line of a refusal, and how many bytes it has; 14 where they are too few.
pub fn refusal_line(n: u32, out: &mut [u8]) -> Result<usize, Refusal>
    ensures { left result out.new ≡ refused-listed n out.old }
{
    try_print_first(&Refused { number: n }, LINE, out)
}
