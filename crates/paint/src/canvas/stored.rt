//! What painting reads of a screen's lent words, and what it writes.
use depth::Depth;

/// The rows' records, render commands and depth fills, and the tables of attributes, whole. Laid out as in C.
#[repr(C)]
#[derive(Clone, Copy)]
pub struct Stored<'a> {
    pub rows: &'a [u32],
    pub render_cmds: &'a [u32],
    pub depth_cmds: &'a [u32],
    pub paint_attrs: &'a [u32],
    pub layer_attrs: &'a [u32],
}

/// What is written while painting: the rows' depth words with the minima above them, and the painting table, two words a row (steps done, and nesting).
/// One screen may be painted in several places, each with a canvas of its own. Laid out as in C.
#[repr(C)]
#[derive(Drop)]
pub struct Canvas<'a> {
    pub depth: Depth<'a>,
    pub painting: &'a mut [u32],
}

/// One row's own part of what is written: its depth words, the minima above them, and its two painting words.
#[derive(Drop)]
pub struct RowWords<'a> {
    pub depth: &'a mut [u32],
    pub minima: &'a mut [u32],
    pub painting: &'a mut [u32],
}
