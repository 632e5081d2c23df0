//! Whether the leaves answer a case as the original did. A list of runs is lent full of marks, and compared to its end.
use crate::cases::{Case, MARK};
use depth::{
    Depth, DepthState, Split, minima, minima_room, split_opaque_span, unset_runs,
    unset_runs_and_write, visible_runs,
};
use sizes::answers::Refusal;
use span::{BucketRange, TileSpan};

// Most words of a list of runs, and most depth words.
const ROOM: usize = 40;

// Most minima of a row.
const MINIMA_ROOM: usize = 127;

// A split's parts: three words each, 0 for a regular one or 1 for buckets, then from where to where.
fn is_split(split: Split, parts: &[u32]) -> bool {
    match split {
        Split::Whole(t) => parts == [0, t.first, t.end].as_slice(),
        Split::Opaque {
            before,
            buckets: BucketRange { first, end },
            after,
        } => match (before, after) {
            (None, None) => parts == [1, first, end].as_slice(),
            (None, Some(a)) => parts == [1, first, end, 0, a.first, a.end].as_slice(),
            (Some(b), None) => parts == [0, b.first, b.end, 1, first, end].as_slice(),
            (Some(b), Some(a)) => parts
                == [0, b.first, b.end, 1, first, end, 0, a.first, a.end].as_slice(),
        },
    }
}

// Whether as many runs were listed as are stored, and the list holds them and nothing else.
fn is_listed(answer: Result<usize, Refusal>, list: &[u32], runs: &[u32]) -> bool {
    match (answer, list.split_at_checked(runs.len())) {
        (Ok(count), Some((listed, rest))) => {
            count == runs.len() / 2 && listed == runs && rest.iter().all(|word| *word == MARK)
        }
        _ => false,
    }
}

// The runs and the words are those stored; the minima are those made afresh.
fn agrees_writing(
    depth: &[u32],
    buckets: BucketRange,
    id: u32,
    runs: &[u32],
    after: &[u32],
) -> bool {
    let mut list = [MARK; ROOM];
    let mut room = [0; ROOM];
    let mut above = [0; MINIMA_ROOM];
    let mut afresh = [0; MINIMA_ROOM];
    if ROOM < depth.len() {
        return false;
    }
    let long = minima_room(depth.len());
    if MINIMA_ROOM < long {
        return false;
    }
    room[..depth.len()].copy_from_slice(depth);
    minima::make(depth, &mut above[..long]);
    let answer = unset_runs_and_write(
        &mut Depth {
            words: &mut room[..depth.len()],
            minima: &mut above[..long],
        },
        buckets,
        id,
        &mut list,
    );
    minima::make(&room[..depth.len()], &mut afresh[..long]);
    is_listed(answer, &list, runs) && &room[..depth.len()] == after && above == afresh
}

// The summary of a row with these depth fills.
fn summed(fills: &[u32]) -> DepthState {
    let mut state = DepthState::new();
    for fill in fills.chunks_exact(3) {
        if let &[first, end, id] = fill {
            state = state.include_span(TileSpan { first, end }, id);
        }
    }
    state
}

impl Case<'_> {
    /// Whether the leaf gives what the original gave.
    pub fn agrees(self) -> bool {
        match self {
            Case::Split {
                width: Some(width),
                tiles,
                parts: Some(parts),
            } => match split_opaque_span(tiles, width) {
                Ok(split) => is_split(split, parts),
                Err(_) => false,
            },
            Case::Split {
                width: None,
                parts: None,
                ..
            } => true,
            Case::Split { .. } => false,
            Case::Unset {
                width,
                depth,
                tiles,
                runs,
            } => {
                let mut list = [MARK; ROOM];
                let answer = unset_runs(depth, tiles, &mut list, width);
                is_listed(answer, &list, runs)
            }
            Case::Visible {
                width,
                depth,
                id,
                tiles,
                runs,
            } => {
                let mut list = [MARK; ROOM];
                let answer = visible_runs(depth, tiles, id, &mut list, width);
                is_listed(answer, &list, runs)
            }
            Case::Writing {
                depth,
                id,
                buckets,
                runs,
                after,
            } => agrees_writing(depth, buckets, id, runs, after),
            Case::CanSkip {
                fills,
                tiles,
                id,
                due,
            } => summed(fills).can_skip(tiles, id) == Ok(due == 1) && due <= 1,
            Case::Broken => false,
        }
    }
}
