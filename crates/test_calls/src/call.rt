//! A call of a sequence.
use crate::tables::Table;
use fill::list::Draws;
use inputs::Draw;
use layers::FilterFill;
use rect::Rect;
use screen::Setup;
use screen::layers::LayerProps;
use span::{BucketRange, TileSpan};

/// A call with its arguments, as its words say (oracle/README.md).
#[derive(Clone, Copy)]
pub enum Call<'a> {
    Build(Step<'a>),
    FillList(FillList<'a>),
    Begin,
    Paint(Painting),
    // A step of a row, lent `room` words of a list.
    PaintStep { row: usize, room: usize },
    CompactRow { row: usize },
    // The id that the next step takes.
    NextId(u32),
    Show,
    Forge(Forgery),
    // From now on a word less of a table is lent; none for the whole of all.
    LendShort(Option<Table>),
    Sum,
    // No call: it has no answer.
    Unknown,
}

/// A building step.
#[derive(Clone, Copy)]
pub enum Step<'a> {
    // No setup where a bucket's width is none.
    Reset {
        viewport: Rect,
        setup: Option<Setup>,
    },
    Fill {
        draw: Draw,
        paints: &'a [u32],
        segments: &'a [u32],
    },
    Push(LayerProps),
    Pop {
        segments: &'a [u32],
    },
    FilterFill(FilterFill),
}

/// A list of fills.
#[derive(Clone, Copy)]
pub struct FillList<'a> {
    pub draws: Draws<'a>,
    pub paints: &'a [u32],
    pub segments: &'a [u32],
}

/// A painting call that is neither a beginning nor a step of a row. What lists something is lent `room` words of a list.
#[derive(Clone, Copy)]
pub enum Painting {
    UnsetRuns {
        row: usize,
        tiles: TileSpan,
        room: usize,
    },
    VisibleRuns {
        row: usize,
        id: u32,
        tiles: TileSpan,
        room: usize,
    },
    UnsetRunsAndWrite {
        row: usize,
        id: u32,
        buckets: BucketRange,
        room: usize,
    },
    CanSkip {
        row: usize,
        tiles: TileSpan,
        id: u32,
    },
    IsHidden {
        row: usize,
        buckets: BucketRange,
        id: u32,
    },
}

/// A word that is set to anything, which no call does.
#[derive(Clone, Copy)]
pub enum Forgery {
    // One of the screen's numbers.
    Number {
        place: u32,
        word: u32,
    },
    Word {
        table: Option<Table>,
        place: usize,
        word: u32,
    },
}
