//! The programs' tables and text buffer: made once, and lent to each recording. What is printed of one does not depend on what they held.
ghost use Rattle.std.specs.Prelude.{◌≡◌, ◌≤◌, ◌*◌, replicate, IfOk};
ghost use Rattle.sizes.specs.Sizes.{program-rows, program-buckets, program-minima};
ghost use Rattle.rules.specs.Minima.{minima-room};
ghost use Rattle.screen.specs.Lent.{tables_in};
ghost use Rattle.text.specs.Files.{size, Exact};
ghost use Rattle.text_files.specs.Rooms.{text-room};
ghost use Rattle.text_files.specs.Tables.{Zeros};

use crate::TEXT_ROOM;
use depth::minima_room;
use screen::Lent;
use sizes::{
    FILTER_TABLE, LAYER_TABLE, OPACITIES, OPEN_TABLE, PAINT_TABLE, PROGRAM_DEPTH, PROGRAM_DEPTHS,
    PROGRAM_FILLS, PROGRAM_MINIMA, PROGRAM_PAINTING, PROGRAM_RECORDS, PROGRAM_RENDER,
    PROGRAM_RENDERS, ROW,
};
use std::alloc::{AllocError, Global};

/// All the words that a screen of 32 rows of 64 buckets asks for, with 64 commands and 64 depth fills a row.
#[derive(Drop)]
pub struct Tables {
    render_cmds: Box<[u32; PROGRAM_RENDER]>,
    depth_cmds: Box<[u32; PROGRAM_FILLS]>,
    depth: Box<[u32; PROGRAM_DEPTH]>,
    minima: Box<[u32; PROGRAM_MINIMA]>,
    rows: Box<[u32; PROGRAM_RECORDS]>,
    painting: Box<[u32; PROGRAM_PAINTING]>,
    layers: Box<[u32; OPEN_TABLE]>,
    opacities: Box<[f32; OPACITIES]>,
    paint_attrs: Box<[u32; PAINT_TABLE]>,
    layer_attrs: Box<[u32; LAYER_TABLE]>,
    filter_paints: Box<[i32; FILTER_TABLE]>,
}

// How many minima so many rows of so many buckets have.
fn minima_words(rows: usize, buckets: usize) -> usize
    requires high { rows ≤ program-rows }
    requires wide { buckets ≤ program-buckets }
    ensures value { result ≡ rows * minima-room buckets }
    ensures few { result ≤ program-minima }
{
    rows * minima_room(buckets)
}

impl Tables {
    /// Tables of zeros; an error where memory is wanting.
    pub fn new(alloc: Global) -> Result<Tables, AllocError>
        ensures { IfOk result Zeros }
    {
        Ok(Tables {
            render_cmds: Box::new(alloc, [0; PROGRAM_RENDER])?,
            depth_cmds: Box::new(alloc, [0; PROGRAM_FILLS])?,
            depth: Box::new(alloc, [0; PROGRAM_DEPTH])?,
            minima: Box::new(alloc, [0; PROGRAM_MINIMA])?,
            rows: Box::new(alloc, [0; PROGRAM_RECORDS])?,
            painting: Box::new(alloc, [0; PROGRAM_PAINTING])?,
            layers: Box::new(alloc, [0; OPEN_TABLE])?,
            opacities: Box::new(alloc, [0.0; OPACITIES])?,
            paint_attrs: Box::new(alloc, [0; PAINT_TABLE])?,
            layer_attrs: Box::new(alloc, [0; LAYER_TABLE])?,
            filter_paints: Box::new(alloc, [0; FILTER_TABLE])?,
        })
    }

    /// As many words of each as a screen of so many rows, of so many buckets each, asks for.
    pub fn lend(&mut self, rows: usize, buckets: usize) -> Lent<'_>
        requires high { rows ≤ program-rows }
        requires wide { buckets ≤ program-buckets }
        ensures { Exact (size rows buckets) (tables_in result) }
    {
        Lent {
            render_cmds: &mut self.render_cmds[..rows * PROGRAM_RENDERS],
            depth_cmds: &mut self.depth_cmds[..rows * PROGRAM_DEPTHS],
            depth: &mut self.depth[..rows * buckets],
            minima: &mut self.minima[..minima_words(rows, buckets)],
            rows: &mut self.rows[..rows * ROW],
            painting: &mut self.painting[..rows * 2],
            layers: &mut self.layers[..],
            opacities: &mut self.opacities[..],
            paint_attrs: &mut self.paint_attrs[..],
            layer_attrs: &mut self.layer_attrs[..],
            filter_paints: &mut self.filter_paints[..],
        }
    }
}

/// Room for the longest text of a screen, or of its attributes.
pub fn text_buffer(alloc: Global) -> Result<Vec<u8>, AllocError>
    ensures { IfOk result (λ buffer. buffer.items ≡ replicate text-room 0) }
{
    Ok(vec![in alloc; 0; TEXT_ROOM]?)
}
