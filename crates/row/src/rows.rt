//! The rows of a screen as three lent slices, and where row r's words stand in them (bucketer.rs, CommandBucketer's rows).
ghost use Rattle.std.specs.Prelude.{◌≡◌, ◌+◌, ◌*◌, ◌≤◌, ◌<◌, length, take, drop};
ghost use Rattle.sizes.specs.Sizes.{most-room, most-rows};
ghost use Rattle.row.specs.Arena.{Stands};

use sizes::ROW;

/// The words of all rows, lent: their records (`state`, ROW words a row), their render commands (4 x C words a row), their depth fills (2 x D words a row).
#[derive(Drop)]
pub struct Rows<'a> {
    pub state: &'a mut [u32],
    pub render_cmds: &'a mut [u32],
    pub depth_cmds: &'a mut [u32],
}

/// Where row r's words start and end: x in the records, y in the render commands, z in the depth fills.
#[derive(Clone, Copy, Debug, PartialEq, Eq)]
pub struct Place {
    pub x0: usize,
    pub x1: usize,
    pub y0: usize,
    pub y1: usize,
    pub z0: usize,
    pub z1: usize,
}

/// Row r's place, with room for c commands and d depth fills in a row.
pub fn place_of(c: u32, d: u32, r: usize) -> Place
    requires { (c ≤ most-room) × (d ≤ most-room) × (r < most-rows) }
    ensures { Stands c d r result }
{
    let cw = 4 * (c as usize);
    let dw = 2 * (d as usize);
    let x0 = r * ROW;
    let y0 = r * cw;
    let z0 = r * dw;
    Place {
        x0,
        x1: x0 + ROW,
        y0,
        y1: y0 + cw,
        z0,
        z1: z0 + dw,
    }
}

/// Row r's words in one slice, which has `size` words a row: how a row is read.
pub fn part(list: &[u32], size: usize, r: usize) -> &[u32]
    requires { r * size + size ≤ length list.now }
    ensures { result.now ≡ take size (drop (r * size) list.now) }
{
    let at = r * size;
    &list[at..at + size]
}
