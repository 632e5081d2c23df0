//! What the building steps take, and a recording file's records hold: a draw, a clip, a filter, each with its bounds (answer 4). A file's judge and a direct
//! call's judge ask the same functions. Parts: any numbers may stand in them.
#![tactic(auto)]

ghost use Rattle.std.specs.Prelude.{◌≡◌};
ghost use Rattle.rules.specs.Spans.{good-range};
ghost use Rattle.rules.specs.Inputs.{good-clip, good-filter};
ghost use Rattle.rules.specs.Recording.{zero-box, zero-clip, zero-filter};
ghost use Rattle.rect.specs.Rects.{box_of};
ghost use Rattle.inputs.specs.Inputs.{draw-of, clip-of, filter-of, draw_fields, clip_fields};

pub mod draws;

use cmd::blend::Blend;
use rect::Rect;
use sizes::{HANDLE_END, PANEL_END, SCENE_END, THREAD_END};

/// Segments start to end of a list, painted with the paint at a place of a paint list (record.rs, RecordedFill). The thread is that of their alpha values;
/// `mask` is a handle, or 0 for none.
#[derive(Clone, Copy, Debug, PartialEq, Eq)]
pub struct Draw {
    pub thread: u32,
    pub start: usize,
    pub end: usize,
    pub paint: u32,
    pub blend: Blend,
    pub mask: u32,
    pub panel: u32,
}

/// A layer's clip (vello_common, LayerClip): its box in pixels of the scene, the range of its segments in a list, the thread of its alpha values.
#[derive(Clone, Copy, Debug, PartialEq, Eq)]
pub struct Clip {
    pub bbox: Rect,
    pub start: u32,
    pub end: u32,
    pub thread: u32,
}

/// What a filter layer draws: the picture's handle, counted from 0, or none; where, a box in pixels of the scene; the pixel of the picture that comes to the
/// box's corner (vello_common, FilterLayerPlacement).
#[derive(Clone, Copy, Debug, PartialEq, Eq)]
pub struct Filter {
    pub pixmap: Option<u32>,
    pub dest: Rect,
    pub source_x: u32,
    pub source_y: u32,
}

/// Whether places start to end are in a list of `count`, and in order.
pub fn is_good_range(start: usize, end: usize, count: usize) -> bool
    ensures { result ≡ good-range start «end» count }
{
    start <= end && end <= count
}

// All four are 0.
fn is_zero_box(bounds: Rect) -> bool
    ensures { result ≡ zero-box (box_of bounds) }
{
    bounds.x0 == 0 && bounds.y0 == 0 && bounds.x1 == 0 && bounds.y1 == 0
}

impl Draw {
    /// Whether its own fields are in their bounds, beside so many paints and segments. The paint that it names is judged by itself.
    #[tactic(auto, unfolding(crate::specs::Inputs::draw_fields))]
    pub fn is_good(self, paints: usize, segments: usize) -> bool
        ensures { result ≡ draw_fields paints segments (draw-of self) }
    {
        self.thread < THREAD_END
            && is_good_range(self.start, self.end, segments)
            && (self.paint as usize) < paints
            && self.blend.is_good()
            && self.mask < HANDLE_END
            && self.panel < PANEL_END
    }
}

impl Clip {
    /// Whether its numbers are in their bounds. Where its range ends in a list is judged where the list is known.
    pub fn is_good(self) -> bool
        ensures { result ≡ good-clip (clip-of self) }
    {
        self.bbox.is_good() && self.start <= self.end && self.thread < THREAD_END
    }

    /// The same, beside a list of so many segments.
    #[tactic(auto, unfolding(crate::specs::Inputs::clip_fields))]
    pub fn is_good_in(self, segments: usize) -> bool
        ensures { result ≡ clip_fields segments (clip-of self) }
    {
        self.is_good() && self.end as usize <= segments
    }

    /// All zeros: what stands for a clip where there is none.
    pub fn is_absent(self) -> bool
        ensures { result ≡ zero-clip (clip-of self) }
    {
        is_zero_box(self.bbox) && self.start == 0 && self.end == 0 && self.thread == 0
    }
}

impl Filter {
    /// Whether its numbers are in their bounds.
    pub fn is_good(self) -> bool
        ensures { result ≡ good-filter (filter-of self) }
    {
        self.pixmap.is_none_or(|handle| handle < HANDLE_END)
            && self.dest.is_good_dest()
            && self.source_x <= SCENE_END
            && self.source_y <= SCENE_END
    }

    /// No picture, and zeros: what stands for a filter where there is none.
    pub fn is_absent(self) -> bool
        ensures { result ≡ zero-filter (filter-of self) }
    {
        self.pixmap.is_none() && is_zero_box(self.dest) && self.source_x == 0 && self.source_y == 0
    }
}
