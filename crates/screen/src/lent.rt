//! The words that a host lends with a screen, and how many: judged and cleared by a reset.
ghost use Rattle.std.specs.Prelude.{ℕ, true, ◌≡◌, ◌≤◌, ◌<◌, ◌*◌, ◌++◌, length, replicate, take, drop};
ghost use Rattle.sizes.specs.Refusals.{answer_number};
ghost use Rattle.sizes.specs.Sizes.{most-rows};
ghost use Rattle.rules.specs.Boxes.{good_viewport};
ghost use Rattle.rules.specs.Lists.{join};
ghost use Rattle.rules.specs.Minima.{minima-room};
ghost use Rattle.rect.specs.Rects.{box_of};
ghost use Rattle.screen.specs.Screens.{frame-of};
ghost use Rattle.screen.specs.Judging.{good-fixed, judged_reset};
ghost use Rattle.depth.specs.Minima.{SameDepth};
ghost use Rattle.screen.specs.Depths.{depths_in, blank, blank-minima};
ghost use Rattle.screen.specs.Tables.{lengths, cleared};
ghost use Rattle.screen.specs.Lent.{tables_in, SameLent};

use crate::{Screen, is_good_rooms};
use depth::minima::make;
use depth::{Depth, minima_room};
use sizes::answers::Refusal;
use sizes::{FILTER_TABLE, LAYER_TABLE, OPACITIES, OPEN_TABLE, PAINT_TABLE, ROW};

/// All that a host lends with a screen: the rows' render commands (4 x C words a row), depth fills (2 x D), depth words (one a bucket) with the minima above them
/// (`minima_room` of its buckets), records (ROW), what painting keeps of each row (two words: steps done, nesting), the open layers and the opacities, and the
/// tables of attributes and filter paints. Laid out as in C.
#[repr(C)]
#[derive(Drop)]
pub struct Lent<'a> {
    pub render_cmds: &'a mut [u32],
    pub depth_cmds: &'a mut [u32],
    pub depth: &'a mut [u32],
    pub minima: &'a mut [u32],
    pub rows: &'a mut [u32],
    pub painting: &'a mut [u32],
    pub layers: &'a mut [u32],
    pub opacities: &'a mut [f32],
    pub paint_attrs: &'a mut [u32],
    pub layer_attrs: &'a mut [u32],
    pub filter_paints: &'a mut [i32],
}

/// How many words of each are lent, or are to be. Laid out as in C.
#[repr(C)]
#[derive(Clone, Copy, Debug, PartialEq, Eq)]
pub struct Lengths {
    pub render_cmds: usize,
    pub depth_cmds: usize,
    pub depth: usize,
    pub rows: usize,
    pub painting: usize,
    pub layers: usize,
    pub opacities: usize,
    pub paint_attrs: usize,
    pub layer_attrs: usize,
    pub filter_paints: usize,
    pub minima: usize,
}

impl Lengths {
    // The tables whose length no screen changes.
    fn is_good_fixed(self) -> bool
        ensures { result ≡ good-fixed self }
    {
        self.layers == OPEN_TABLE
            && self.opacities == OPACITIES
            && self.paint_attrs == PAINT_TABLE
            && self.layer_attrs == LAYER_TABLE
            && self.filter_paints == FILTER_TABLE
    }
}

/// 1, then 4: how many words a reset is lent for a screen of a good viewport.
#[tactic(auto, unfolding(crate::specs::Judging::judged_reset))]
pub fn judge_reset(screen: Screen, lent: Lengths) -> Result<(), Refusal>
    requires { good_viewport (box_of screen.viewport) ≡ true }
    ensures { answer_number result ≡ judged_reset (frame-of screen) lent }
{
    let n = screen.rows();
    let b = screen.buckets();
    if !is_good_rooms(n, screen.c, screen.d, lent.render_cmds, lent.depth_cmds)
        || lent.depth != n * b
        || lent.minima != n * minima_room(b)
    {
        return Err(Refusal::BadArena);
    }
    if lent.rows != n * ROW || lent.painting != n * 2 || !lent.is_good_fixed() {
        return Err(Refusal::BadRecord);
    }
    Ok(())
}

// Copies of the first `room` words fill the others: what is there is copied behind itself, until all is there.
fn repeat(minima: &mut [u32], room: usize)
    requires { (n : ℕ) × (0 < n) × (0 < room) × (length minima.old ≡ n * room) }
    ensures { (n : ℕ) → length minima.old ≡ n * room → minima.new ≡ join (take room) (replicate n minima.old) }
{
    let mut done = room;
    while done < minima.len() {
        let (made, rest) = minima.split_at_mut(done);
        let more = made.len().min(rest.len());
        rest[..more].copy_from_slice(&made[..more]);
        done += more;
    }
}

/// The words of rows of so many buckets become 0, and each row's minima are made afresh of them.
pub fn blank_rows(words: &mut [u32], minima: &mut [u32], rows: usize, buckets: usize)
    requires few { (rows ≤ most-rows) × (buckets ≤ 64) }
    requires words { length words.old ≡ rows * buckets }
    requires minima { length minima.old ≡ rows * minima-room buckets }
    ensures words { words.new ≡ replicate (length words.old) 0 }
    ensures minima { minima.new ≡ blank-minima rows buckets }
{
    words.fill(0);
    let room = minima_room(buckets);
    // Where no group has a place past the row's last bucket, all minima are 0.
    if rows == 0 || buckets == 0 || room + 1 == 2 * buckets {
        minima.fill(0);
        return;
    }
    make(&words[..buckets], &mut minima[..room]);
    repeat(minima, room);
}

/// The depth words of rows of so many buckets become 0, and each row's minima are made afresh of them.
pub fn blank_depth(depth: &mut Depth<'_>, rows: usize, buckets: usize)
    requires few { (rows ≤ most-rows) × (buckets ≤ 64) }
    requires words { length depth.old.words.now ≡ rows * buckets }
    requires minima { length depth.old.minima.now ≡ rows * minima-room buckets }
    ensures same { SameDepth depth.old depth.new }
    ensures blank { depths_in depth.new ≡ blank rows buckets (depths_in depth.old) }
{
    blank_rows(depth.words, depth.minima, rows, buckets);
}

impl Lent<'_> {
    /// How many words of each are lent.
    pub fn lengths(&self) -> Lengths
        ensures { result ≡ lengths (tables_in self.now) }
    {
        Lengths {
            render_cmds: self.render_cmds.len(),
            depth_cmds: self.depth_cmds.len(),
            depth: self.depth.len(),
            rows: self.rows.len(),
            painting: self.painting.len(),
            layers: self.layers.len(),
            opacities: self.opacities.len(),
            paint_attrs: self.paint_attrs.len(),
            layer_attrs: self.layer_attrs.len(),
            filter_paints: self.filter_paints.len(),
            minima: self.minima.len(),
        }
    }

    /// Every lent word becomes 0 and the minima those of words that are 0, as a reset of the screen leaves them.
    pub fn clear(&mut self, screen: Screen)
        requires judged { judged_reset (frame-of screen) (lengths (tables_in self.old)) ≡ 0 }
        ensures same { SameLent self.old self.new }
        ensures cleared { tables_in self.new ≡ cleared (frame-of screen) (tables_in self.old) }
    {
        self.render_cmds.fill(0);
        self.depth_cmds.fill(0);
        blank_rows(self.depth, self.minima, screen.rows(), screen.buckets());
        self.rows.fill(0);
        self.painting.fill(0);
        self.layers.fill(0);
        self.opacities.fill(0.0);
        self.paint_attrs.fill(0);
        self.layer_attrs.fill(0);
        self.filter_paints.fill(0);
    }
}
