//! The table of open layers (bucketer.rs, ActiveLayer), OPEN_LAYER words a layer: mix, compose, mask, clip flag, clip box, segment start and end, thread, the
//! layer's own box, NaN pattern, panel. Zeros for an absent clip. An opacity stands apart, as an f32. Parts: callers have judged what a `requires` asks.
ghost use Rattle.std.specs.Prelude.{◌≡◌, ◌*◌, ◌<◌, length, set};
ghost use Rattle.sizes.specs.Sizes.{most-layers, open-layer-size, open-layer-table, opacity-count};
ghost use Rattle.rules.specs.Inputs.{all-good};
ghost use Rattle.rules.specs.Plans.{layer-box};
ghost use Rattle.rect.specs.Rects.{box_of};
ghost use Rattle.cmd.specs.Attrs.{words-at};
ghost use Rattle.screen.specs.LentLayers.{SameLayers};
ghost use Rattle.screen.specs.Layers.{clip-of, good-pattern, good-given, layer-of, clip-words, flat-words, layer-words, no_words, open_at, box_in, good_layer, good_own_box, no_opacity};

use cmd::blend::Blend;
pub use inputs::Clip;
use rect::{NOWHERE, Rect};
use sizes::{HANDLE_END, OPEN_LAYER, PANEL_END, SCENE_END, THREAD_END, TILE_HEIGHT, TILE_WIDTH};

/// What a push is given (vello_common, LayerProps). A clip's segments are those of the list that the pop is lent. `nan` is the pattern of a NaN opacity, else
/// 0; `mask` a handle, or 0 for none.
#[derive(Clone, Copy)]
pub struct LayerProps {
    pub blend: Blend,
    pub opacity: f32,
    pub nan: u32,
    pub mask: u32,
    pub clip: Option<Clip>,
    pub panel: u32,
}

/// What a pop reads of an open layer: flag 1 with a clip, 0 without; the clip's range and thread; its own box, in pixels, local to the viewport.
#[derive(Clone, Copy, Debug, PartialEq, Eq)]
pub struct OpenLayer {
    pub blend: Blend,
    pub mask: u32,
    pub flag: u32,
    pub start: u32,
    pub end: u32,
    pub thread: u32,
    pub bbox: Rect,
    pub nan: u32,
    pub panel: u32,
}

/// The open layers, lent: their words, and the opacities, in which those of the layer attributes follow.
#[derive(Drop)]
pub struct Layers<'a> {
    pub table: &'a mut [u32],
    pub opacities: &'a mut [f32],
}

// A clip as it stands in the table.
#[derive(Clone, Copy)]
struct FlatClip {
    flag: u32,
    bbox: Rect,
    start: u32,
    end: u32,
    thread: u32,
}

// The clip, with zeros where there is none.
fn flat(clip: Option<Clip>) -> FlatClip
    ensures { flat-words result ≡ clip-words (clip-of clip) }
{
    match clip {
        None => FlatClip {
            flag: 0,
            bbox: NOWHERE,
            start: 0,
            end: 0,
            thread: 0,
        },
        Some(c) => FlatClip {
            flag: 1,
            bbox: c.bbox,
            start: c.start,
            end: c.end,
            thread: c.thread,
        },
    }
}

// Answer 4: a clip's own numbers.
fn is_good_clip(clip: Option<Clip>) -> bool
    ensures { result ≡ all-good (clip-of clip) }
{
    match clip {
        None => true,
        Some(c) => c.is_good(),
    }
}

// Answer 4: a NaN opacity has a NaN's pattern beside it, any other 0.
#[tactic(auto, using(crate::proofs::LayersLaws::nan_pattern, crate::proofs::LayersLaws::plain_pattern))]
fn is_good_pattern(opacity: f32, nan: u32) -> bool
    ensures { result ≡ good-pattern opacity nan }
{
    if opacity.is_nan() {
        2139095040 < nan % 2147483648
    } else {
        nan == 0
    }
}

impl LayerProps {
    /// Whether what a push is given is in its bounds (answer 4); the end of the clip's range is judged at the pop.
    pub fn is_good(self) -> bool
        ensures { result ≡ good-given self }
    {
        is_good_pattern(self.opacity, self.nan)
            && self.blend.is_good()
            && self.mask < HANDLE_END
            && is_good_clip(self.clip)
            && self.panel < PANEL_END
    }
}

impl OpenLayer {
    /// Whether what a pop reads of a layer is in its bounds (answer 4), but for the own box.
    #[tactic(auto, unfolding(crate::specs::Layers::good_layer))]
    pub fn is_good(self) -> bool
        ensures { result ≡ good_layer self }
    {
        self.blend.is_good()
            && self.mask < HANDLE_END
            && self.flag <= 1
            && self.start <= self.end
            && self.thread < THREAD_END
            && self.panel < PANEL_END
    }
}

/// Rule 8: a layer's own box, in pixels, local to the viewport: its clip box made local and met with the parent's box, or the parent's.
pub fn layer_box(viewport: Rect, parent: Rect, clip: Option<Clip>) -> Rect
    ensures { box_of result ≡ layer-box (box_of viewport) (box_of parent) (clip-of clip) }
{
    match clip {
        None => parent,
        Some(c) => c
            .bbox
            .relative_to_origin(viewport.x0, viewport.y0)
            .intersect(parent),
    }
}

/// The own box of an open layer (answer 4): in whole tiles, and within the viewport at its ends.
#[tactic(auto, unfolding(crate::specs::Layers::good_own_box))]
pub fn is_good_own_box(viewport: Rect, bbox: Rect) -> bool
    ensures { result ≡ good_own_box (box_of viewport) (box_of bbox) }
{
    bbox.x0 % TILE_WIDTH == 0
        && bbox.y0 % TILE_HEIGHT == 0
        && bbox.x1 % TILE_WIDTH == 0
        && bbox.y1 % TILE_HEIGHT == 0
        && bbox.x0 <= SCENE_END
        && bbox.y0 <= SCENE_END
        && bbox.x1 <= viewport.width()
        && bbox.y1 <= viewport.height()
}

// The words of layer k.
fn put_layer(layers: &mut [u32], k: u32, props: LayerProps, bbox: Rect)
    requires level { k < most-layers }
    requires long { length layers.old ≡ open-layer-table }
    ensures { layers.new ≡ words-at layers.old (open-layer-size * k) (layer-words (layer-of props bbox) props.nan) }
{
    let at = OPEN_LAYER * k as usize;
    let clip = flat(props.clip);
    layers[at] = props.blend.mix;
    layers[at + 1] = props.blend.compose;
    layers[at + 2] = props.mask;
    layers[at + 3] = clip.flag;
    layers[at + 4] = clip.bbox.x0;
    layers[at + 5] = clip.bbox.y0;
    layers[at + 6] = clip.bbox.x1;
    layers[at + 7] = clip.bbox.y1;
    layers[at + 8] = clip.start;
    layers[at + 9] = clip.end;
    layers[at + 10] = clip.thread;
    layers[at + 11] = bbox.x0;
    layers[at + 12] = bbox.y0;
    layers[at + 13] = bbox.x1;
    layers[at + 14] = bbox.y1;
    layers[at + 15] = props.nan;
    layers[at + 16] = props.panel;
}

// Every word of layer k is 0.
fn drop_layer(layers: &mut [u32], k: u32)
    requires level { k < most-layers }
    requires long { length layers.old ≡ open-layer-table }
    ensures { layers.new ≡ words-at layers.old (open-layer-size * k) no_words }
{
    let at = OPEN_LAYER * k as usize;
    layers[at..at + OPEN_LAYER].fill(0);
}

impl Layers<'_> {
    /// Stores layer k, counted from 0, the outermost; its opacity bit for bit.
    pub fn put(&mut self, k: u32, props: LayerProps, bbox: Rect)
        requires level { k < most-layers }
        requires long { length self.old.table.now ≡ open-layer-table }
        requires opacities_long { length self.old.opacities.now ≡ opacity-count }
        ensures same { SameLayers self.old self.new }
        ensures table { self.new.table.now ≡ words-at self.old.table.now (open-layer-size * k) (layer-words (layer-of props bbox) props.nan) }
        ensures opacities { self.new.opacities.now ≡ set self.old.opacities.now k props.opacity }
    {
        put_layer(self.table, k, props, bbox);
        self.opacities[k as usize] = props.opacity;
    }

    /// Every word in layer k's place, and its opacity, become 0.
    pub fn drop_at(&mut self, k: u32)
        requires level { k < most-layers }
        requires long { length self.old.table.now ≡ open-layer-table }
        requires opacities_long { length self.old.opacities.now ≡ opacity-count }
        ensures same { SameLayers self.old self.new }
        ensures table { self.new.table.now ≡ words-at self.old.table.now (open-layer-size * k) no_words }
        ensures opacities { self.new.opacities.now ≡ set self.old.opacities.now k no_opacity }
    {
        drop_layer(self.table, k);
        self.opacities[k as usize] = 0.0;
    }

    /// The own box of layer k.
    pub fn box_at(&self, k: u32) -> Rect
        requires level { k < most-layers }
        requires long { length self.now.table.now ≡ open-layer-table }
        ensures { result ≡ box_in self.now.table.now k }
    {
        let at = OPEN_LAYER * k as usize;
        Rect {
            x0: self.table[at + 11],
            y0: self.table[at + 12],
            x1: self.table[at + 13],
            y1: self.table[at + 14],
        }
    }

    /// Layer k as it stands in the table, without its opacity.
    pub fn open_at(&self, k: u32) -> OpenLayer
        requires level { k < most-layers }
        requires long { length self.now.table.now ≡ open-layer-table }
        ensures { result ≡ open_at self.now.table.now k }
    {
        let at = OPEN_LAYER * k as usize;
        OpenLayer {
            blend: Blend {
                mix: self.table[at],
                compose: self.table[at + 1],
            },
            mask: self.table[at + 2],
            flag: self.table[at + 3],
            start: self.table[at + 8],
            end: self.table[at + 9],
            thread: self.table[at + 10],
            bbox: self.box_at(k),
            nan: self.table[at + 15],
            panel: self.table[at + 16],
        }
    }
}
