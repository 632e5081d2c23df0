//! A recording file's records: which word is which field stands here alone, and each field's bound (answer 4) here and in `inputs`. Parts: `at` is a record's
//! place among the file's words.
ghost use Rattle.std.specs.Prelude.{◌≡◌, ◌+◌, ◌≤◌, length, get_or};
ghost use Rattle.sizes.specs.Editions.{panel-words, layer-size};
ghost use Rattle.rules.specs.Recording.{pixmap-of};
ghost use Rattle.rect.specs.Rects.{box_of};
ghost use Rattle.inputs.specs.Inputs.{clip-of, filter-of};
ghost use Rattle.file.specs.Places.{panel_from, clip_from, filter_from, layer_from, node_from};
ghost use Rattle.file.specs.Judging.{box_from, clip_part, filter_part, layer_fields, node_fields};
ghost use Rattle.file.specs.Records.{layer-of, node-of};

use cmd::blend::Blend;
use inputs::{Clip, Filter, is_good_range};
use rect::Rect;
use sizes::edition::Edition;
use sizes::{HANDLE_END, PANEL_END};

/// A layer: kind 0 is regular, 1 a filter layer; its nodes are places start to end; flag 1 says that the clip is present. The opacity is the bits of an f32;
/// `mask` is a handle, or 0 for none.
#[derive(Clone, Copy)]
pub struct Layer {
    pub kind: u32,
    pub start: u32,
    pub end: u32,
    pub blend: Blend,
    pub opacity: u32,
    pub mask: u32,
    pub flag: u32,
    pub clip: Clip,
    pub filter: Filter,
    pub panel: u32,
}

/// A node: its draws are places start to end; `layer` is its layer's number + 1, or 0 for none.
#[derive(Clone, Copy, Debug, PartialEq, Eq)]
pub struct Node {
    pub start: u32,
    pub end: u32,
    pub layer: u32,
}

/// The box whose four words stand from a place on: x0, y0, x1, y1, in pixels.
#[tactic(auto, unfolding(crate::specs::Judging::box_from))]
pub fn box_at(w: &[u32], at: usize) -> Rect
    requires { at + 4 ≤ length w.now }
    ensures { box_of result ≡ box_from w.now at }
{
    Rect {
        x0: w[at],
        y0: w[at + 1],
        x1: w[at + 2],
        y1: w[at + 3],
    }
}

// A layer's panel, whose word stands at a place, at the end of the record; edition one has none, and it is 0.
fn panel_at(w: &[u32], at: usize, edition: Edition) -> u32
    requires { at + panel-words edition ≤ length w.now }
    ensures { result ≡ panel_from edition w.now at }
{
    match edition {
        Edition::One => 0,
        Edition::Two => w[at],
    }
}

fn clip_at(w: &[u32], at: usize) -> Clip
    requires { at + 22 ≤ length w.now }
    ensures { clip-of result ≡ clip_from w.now at }
{
    Clip {
        bbox: box_at(w, at + 8),
        start: w[at + 12],
        end: w[at + 13],
        thread: w[at + 14],
    }
}

// The picture that a file's word says: its handle, counted from 0, is the word - 1; 0 is none.
fn pixmap_of(word: u32) -> Option<u32>
    ensures { result ≡ pixmap-of word }
{
    word.checked_sub(1)
}

fn filter_at(w: &[u32], at: usize) -> Filter
    requires { at + 22 ≤ length w.now }
    ensures { filter-of result ≡ filter_from w.now at }
{
    Filter {
        pixmap: pixmap_of(w[at + 15]),
        dest: box_at(w, at + 16),
        source_x: w[at + 20],
        source_y: w[at + 21],
    }
}

/// The layer at a place.
#[tactic(auto, unfolding(crate::specs::Places::layer_from))]
pub fn layer_at(w: &[u32], at: usize, edition: Edition) -> Layer
    requires { at + layer-size edition ≤ length w.now }
    ensures { layer-of result ≡ layer_from edition w.now at }
{
    Layer {
        kind: w[at],
        start: w[at + 1],
        end: w[at + 2],
        blend: Blend {
            mix: w[at + 3],
            compose: w[at + 4],
        },
        opacity: w[at + 5],
        mask: w[at + 6],
        flag: w[at + 7],
        clip: clip_at(w, at),
        filter: filter_at(w, at),
        panel: panel_at(w, at + 22, edition),
    }
}

/// The node at a place, three words.
#[tactic(auto, unfolding(crate::specs::Places::node_from))]
pub fn node_at(w: &[u32], at: usize) -> Node
    requires { at + 3 ≤ length w.now }
    ensures { node-of result ≡ node_from w.now at }
{
    Node {
        start: w[at],
        end: w[at + 1],
        layer: w[at + 2],
    }
}

/// The root at a place, two words: the first node that it names, and the one past the last.
pub fn root_at(w: &[u32], at: usize) -> (usize, usize)
    requires { at + 2 ≤ length w.now }
    ensures { result ≡ (get_or w.now at 0, get_or w.now (at + 1) 0) }
{
    (w[at] as usize, w[at + 1] as usize)
}

impl Layer {
    // A present clip, or fields of 0.
    #[tactic(auto, unfolding(crate::specs::Judging::clip_part))]
    fn is_clip_good(self, segments: usize) -> bool
        ensures { result ≡ clip_part segments (layer-of self) }
    {
        if self.flag == 1 {
            self.clip.is_good_in(segments)
        } else {
            self.clip.is_absent()
        }
    }

    // A filter layer's filter, or fields of 0.
    #[tactic(auto, unfolding(crate::specs::Judging::filter_part))]
    fn is_filter_good(self) -> bool
        ensures { result ≡ filter_part (layer-of self) }
    {
        if self.kind == 1 {
            self.filter.is_good()
        } else {
            self.filter.is_absent()
        }
    }

    /// Whether its fields are in their bounds, in a file of so many nodes and segments.
    #[tactic(auto, unfolding(crate::specs::Judging::layer_fields))]
    pub fn is_good(self, nodes: usize, segments: usize) -> bool
        ensures { result ≡ layer_fields nodes segments (layer-of self) }
    {
        self.kind <= 1
            && is_good_range(self.start as usize, self.end as usize, nodes)
            && self.blend.is_good()
            && self.mask < HANDLE_END
            && self.flag <= 1
            && self.is_clip_good(segments)
            && self.is_filter_good()
            && self.panel < PANEL_END
    }
}

impl Node {
    /// Whether its fields are in their bounds, in a file of so many draws and layers.
    #[tactic(auto, unfolding(crate::specs::Judging::node_fields))]
    pub fn is_good(self, draws: usize, layers: usize) -> bool
        ensures { result ≡ node_fields draws layers (node-of self) }
    {
        is_good_range(self.start as usize, self.end as usize, draws)
            && self.layer as usize <= layers
    }
}
