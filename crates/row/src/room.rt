//! The one judge of room (answers 4, 10 and 11): a running count of what a step adds to rows, before anything is done. The judges of fills,
//! of runs of rows and of pops are loops over it. Parts: each has a `requires`, which the steps have judged.
ghost use Rattle.std.specs.Prelude.{◌≡◌, ◌+◌, ◌*◌, ◌≤◌, ltb, length, get_or};
ghost use Rattle.sizes.specs.Sizes.{most-layers, most-room, row-size, levels-at};
ghost use Rattle.sizes.specs.Refusals.{answer_number};
ghost use Rattle.row.specs.Room.{record-at, fault_number, at-hand, loaded, Turned, noted, added_to, Low};

use crate::judge::is_good_row;
use crate::rows::part;
use sizes::answers::Refusal;
use sizes::{DEPTHS, LEVELS, RENDERS, ROW, TILE_END};

/// What a row has room for: c commands and d depth fills. What it gets beside what is added: a PushBuf for each of the `layers` open layers that it lacks, and
/// `once` commands.
#[derive(Clone, Copy, Debug, PartialEq, Eq)]
pub struct Limits {
    pub c: u32,
    pub d: u32,
    pub layers: u32,
    pub once: u32,
}

/// Render commands and depth fills that are added to a row.
#[derive(Clone, Copy, Debug, PartialEq, Eq)]
pub struct Counts {
    pub renders: usize,
    pub depths: usize,
}

/// One command and no depth fill: what an unsplit piece, a filter fill or a closing fill adds.
pub const ONE_COMMAND: Counts = Counts {
    renders: 1,
    depths: 0,
};

/// What was found so far: nothing, or what is answered by 5, 10 or 11, of which the smallest counts. A bad record, 4, ends a count at once and has no case.
#[derive(Clone, Copy, Debug, PartialEq, Eq)]
pub enum Fault {
    Nothing,
    BadOrder,
    FullRow,
    FullDepth,
}

impl Fault {
    /// Done, or the refusal of that number.
    pub fn answer(self) -> Result<(), Refusal>
        ensures { answer_number result ≡ fault_number self }
    {
        match self {
            Fault::Nothing => Ok(()),
            Fault::BadOrder => Err(Refusal::BadOrder),
            Fault::FullRow => Err(Refusal::FullRow),
            Fault::FullDepth => Err(Refusal::FullDepth),
        }
    }
}

/// The row at hand with its counts so far, the PushBufs and `once` commands among them, and what was found so far.
#[derive(Clone, Copy, Debug, PartialEq, Eq)]
pub struct Hand {
    pub renders: usize,
    pub depths: usize,
    pub row: u32,
    pub found: Fault,
}

/// No row is at hand: TILE_END is no number of a row.
pub const NO_ROW: Hand = Hand {
    renders: 0,
    depths: 0,
    row: TILE_END,
    found: Fault::Nothing,
};

/// Row r at hand, by its record, which has no more levels than layers are open; nothing is judged.
#[inline(always)]
pub fn load(state: &[u32], limits: Limits, found: Fault, r: u32) -> Hand
    requires { (length state.now ≡ row-size) × (get_or state.now levels-at 0 ≤ limits.layers) }
    ensures { (at-hand result ≡ loaded limits state.now (fault_number found) r) × Low (at-hand result) }
{
    let lacking = (limits.layers - state[LEVELS]) as usize;
    Hand {
        renders: state[RENDERS] as usize + lacking + limits.once as usize,
        depths: state[DEPTHS] as usize,
        row: r,
        found,
    }
}

/// Row r at hand, its record judged first: BadRecord, 4.
pub fn turn_to(rows: &[u32], limits: Limits, found: Fault, r: u32) -> Result<Hand, Refusal>
    requires { (limits.layers ≤ most-layers) × (r * row-size + row-size ≤ length rows.now) }
    ensures { Turned limits (record-at rows.now r) (fault_number found) r result }
{
    let state = part(rows, ROW, r as usize);
    if !is_good_row(state, limits.c, limits.d, limits.layers) {
        return Err(Refusal::BadRecord);
    }
    Ok(load(state, limits, found, r))
}

// What is found after counts that may pass their limits: a broken order stays first, then 10, then 11.
fn note(found: Fault, limits: Limits, renders: usize, depths: usize) -> Fault
    ensures { fault_number result ≡ noted (fault_number found) (ltb limits.c renders) (ltb limits.d depths) }
{
    if (limits.c as usize) < renders {
        return match found {
            Fault::BadOrder => found,
            _ => Fault::FullRow,
        };
    }
    if (limits.d as usize) < depths {
        return match found {
            Fault::Nothing => Fault::FullDepth,
            _ => found,
        };
    }
    found
}

impl Hand {
    /// More commands and depth fills, on the row at hand; FullRow or FullDepth is found where they pass C or D.
    #[tactic(auto, unfolding(crate::specs::Room::added_to))]
    pub fn add(self, limits: Limits, more: Counts) -> Hand
        requires { Low (at-hand self) × (more.renders ≤ most-room) × (more.depths ≤ most-room) }
        ensures { at-hand result ≡ added_to limits (at-hand self) more.renders more.depths }
    {
        let renders = self.renders + more.renders;
        let depths = self.depths + more.depths;
        Hand {
            renders,
            depths,
            row: self.row,
            found: note(self.found, limits, renders, depths),
        }
    }
}
