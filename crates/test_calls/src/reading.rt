//! The calls of a sequence, read from its words.
ghost use Rattle.std.specs.Prelude.{length};
ghost use Rattle.std.specs.Iterator.{at_most};
ghost use Rattle.test_calls.specs.Words.{Passes};

use crate::call::{Call, FillList, Forgery, Painting, Step};
use crate::tables::Table;
use crate::words::Words;
use fill::list::Draws;
use inputs::{Draw, Filter};
use layers::FilterFill;
use rect::Mode;
use screen::Setup;
use screen::layers::{Clip, LayerProps};
use sizes::width::Width;

// Bits as an f32; for a NaN's pattern some NaN.
fn float_of(bits: u32) -> f32 {
    if bits % 2147483648 <= 2139095040 {
        f32::from_bits(bits)
    } else {
        0.0 / 0.0
    }
}

// C, D, the mode, where 0 is exact and any other word snapping, and a bucket's width in pixels.
fn read_setup(words: &mut Words<'_>) -> Option<Setup>
    ensures { Passes words.old words.new }
{
    let c = words.word();
    let d = words.word();
    let mode = if words.flag() {
        Mode::Snapping
    } else {
        Mode::Exact
    };
    let width = Width::try_from(words.word()).ok()?;
    Some(Setup { c, d, mode, width })
}

fn read_draw(words: &mut Words<'_>) -> Draw
    ensures { Passes words.old words.new }
{
    Draw {
        thread: words.word(),
        start: words.index(),
        end: words.index(),
        paint: words.word(),
        blend: words.blend(),
        mask: words.word(),
        panel: words.word(),
    }
}

// A flag, 0 for no clip, then what a clip has.
fn read_clip(words: &mut Words<'_>) -> Option<Clip>
    ensures { Passes words.old words.new }
{
    let there = words.flag();
    let clip = Clip {
        bbox: words.rect(),
        start: words.word(),
        end: words.word(),
        thread: words.word(),
    };
    if there { Some(clip) } else { None }
}

fn read_layer(words: &mut Words<'_>) -> LayerProps
    ensures { Passes words.old words.new }
{
    let blend = words.blend();
    let bits = words.word();
    let opacity = float_of(bits);
    LayerProps {
        blend,
        opacity,
        nan: if opacity.is_nan() { bits } else { 0 },
        mask: words.word(),
        clip: read_clip(words),
        panel: words.word(),
    }
}

// A flag, 0 for no picture, then its handle.
fn read_pixmap(words: &mut Words<'_>) -> Option<u32>
    ensures { Passes words.old words.new }
{
    let there = words.flag();
    let handle = words.word();
    if there { Some(handle) } else { None }
}

fn read_filter_fill(words: &mut Words<'_>) -> FilterFill
    ensures { Passes words.old words.new }
{
    FilterFill {
        filter: Filter {
            pixmap: read_pixmap(words),
            dest: words.rect(),
            source_x: words.word(),
            source_y: words.word(),
        },
        paint_count: words.word(),
        panel: words.word(),
    }
}

// Table 0 are the screen's numbers.
fn read_forgery(words: &mut Words<'_>) -> Forgery
    ensures { Passes words.old words.new }
{
    let table = words.word();
    let place = words.word();
    let word = words.word();
    if table == 0 {
        Forgery::Number { place, word }
    } else {
        Forgery::Word {
            table: Table::numbered(table),
            place: place as usize,
            word,
        }
    }
}

// Kinds 0 to 4.
fn read_step<'a>(kind: u32, words: &mut Words<'a>) -> Step<'a>
    ensures { Passes words.old words.new }
{
    match kind {
        0 => Step::Reset {
            viewport: words.rect(),
            setup: read_setup(words),
        },
        1 => Step::Fill {
            draw: read_draw(words),
            paints: words.records(4),
            segments: words.records(5),
        },
        2 => Step::Push(read_layer(words)),
        3 => Step::Pop {
            segments: words.records(5),
        },
        _ => Step::FilterFill(read_filter_fill(words)),
    }
}

// The range of draws before their words.
fn read_fill_list<'a>(words: &mut Words<'a>) -> FillList<'a>
    ensures { Passes words.old words.new }
{
    let start = words.index();
    let end = words.index();
    FillList {
        draws: Draws {
            words: words.records(1),
            start,
            end,
        },
        paints: words.records(4),
        segments: words.records(5),
    }
}

// Kinds 7 to 10 and 17.
fn read_painting(kind: u32, words: &mut Words<'_>) -> Painting
    ensures { Passes words.old words.new }
{
    match kind {
        7 => Painting::UnsetRuns {
            row: words.index(),
            tiles: words.tiles(),
            room: words.index(),
        },
        8 => Painting::VisibleRuns {
            row: words.index(),
            id: words.word(),
            tiles: words.tiles(),
            room: words.index(),
        },
        9 => Painting::UnsetRunsAndWrite {
            row: words.index(),
            id: words.word(),
            buckets: words.buckets(),
            room: words.index(),
        },
        10 => Painting::CanSkip {
            row: words.index(),
            tiles: words.tiles(),
            id: words.word(),
        },
        _ => Painting::IsHidden {
            row: words.index(),
            buckets: words.buckets(),
            id: words.word(),
        },
    }
}

impl<'a> Call<'a> {
    // The arguments of a kind.
    fn read(kind: u32, words: &mut Words<'a>) -> Call<'a>
        ensures { Passes words.old words.new }
    {
        match kind {
            0..=4 => Call::Build(read_step(kind, words)),
            5 => Call::Begin,
            7..=10 | 17 => Call::Paint(read_painting(kind, words)),
            6 => Call::PaintStep {
                row: words.index(),
                room: words.index(),
            },
            11 => Call::NextId(words.word()),
            12 => Call::Show,
            13 => Call::Forge(read_forgery(words)),
            14 => Call::LendShort(Table::numbered(words.word())),
            15 => Call::Sum,
            16 => Call::FillList(read_fill_list(words)),
            18 => Call::CompactRow { row: words.index() },
            _ => Call::Unknown,
        }
    }
}

/// The calls of a sequence.
#[derive(Drop)]
pub struct Calls<'a> {
    words: Words<'a>,
}

impl<'a> Calls<'a> {
    /// From the words of a sequence.
    pub fn new(sequence: &'a [u32]) -> Calls<'a> {
        Calls {
            words: Words { left: sequence },
        }
    }
}

impl<'a> Iterator for Calls<'a> {
    type Item = Call<'a>;

    ghost remaining = { λ calls. at_most (length calls.words.left.now) };

    fn next(&mut self) -> Option<Call<'a>> {
        let kind = self.words.try_word()?;
        Some(Call::read(kind, &mut self.words))
    }
}
