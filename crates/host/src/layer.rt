//! The calls of layers and of filter fills. A state has a screen's numbers; `screen::Lent` has the eleven tables.
ghost use Rattle.std.specs.Prelude.{◌≡◌};
ghost use Rattle.rules.specs.Answers.{answer};
ghost use Rattle.screen.specs.Lent.{SameLent};
ghost use Rattle.layers.specs.Filter.{given_of};
ghost use Rattle.host.specs.Held.{words_in, props_of, filter_of};
ghost use Rattle.host.specs.Lent.{pop_in, PushKeeps, PopKeeps, FilterKeeps};
ghost use Rattle.host.specs.Called.{push_on, push_out, filter_on, filter_out};
ghost use Rattle.host.specs.Building.{pop_call, picture};

use crate::border::refuse_build;
use crate::state::{
    Corners, StateWords, box_of, leave, leave_filter, leave_push, screen_at, screen_of,
};
use crate::sure::{is_filter_sure, is_push_sure};
use cmd::blend::Blend;
use inputs::Filter;
use layers::{FilterFill, filter_fill, filter_judged, push_judged, push_layer};
use pop::pop_layer;
use row::Rows;
use screen::Lent;
use screen::layers::{Clip, LayerProps, Layers};
use walk::read::{float_of, pattern_of};

/// What a push is given: the opacity is the bits of an f32; the clip (a box in pixels of the scene, a range of segments, a thread) is there if the flag is 1.
/// Laid out as in C.
#[repr(C)]
#[derive(Clone, Copy)]
pub struct PropsWords {
    pub mix: u32,
    pub compose: u32,
    pub opacity: u32,
    pub mask: u32,
    pub flag: u32,
    pub bounds: Corners,
    pub start: u32,
    pub end: u32,
    pub thread: u32,
    pub panel: u32,
}

impl PropsWords {
    // The same, as a push takes it: its clip is there if the flag is 1.
    fn given(&self) -> LayerProps
        ensures { result ≡ props_of self.now }
    {
        let clip = Clip {
            bbox: box_of(self.bounds),
            start: self.start,
            end: self.end,
            thread: self.thread,
        };
        LayerProps {
            blend: Blend {
                mix: self.mix,
                compose: self.compose,
            },
            opacity: float_of(self.opacity),
            nan: pattern_of(self.opacity),
            mask: self.mask,
            clip: if self.flag == 1 { Some(clip) } else { None },
            panel: self.panel,
        }
    }
}

/// What a filter fill is given: a box in pixels of the scene, the pixel of the picture that comes to its corner, the picture's handle (there if has_pixmap
/// is 1), the length of the paint list, the layer's panel. Laid out as in C.
#[repr(C)]
#[derive(Clone, Copy, Debug, PartialEq, Eq)]
pub struct FilterWords {
    pub dest: Corners,
    pub source_x: u32,
    pub source_y: u32,
    pub has_pixmap: u32,
    pub pixmap: u32,
    pub paint_count: u32,
    pub panel: u32,
}

impl FilterWords {
    // The same, as a filter fill takes it: its picture is there if has_pixmap is 1.
    fn given(&self) -> FilterFill
        ensures { given_of result ≡ filter_of self.now }
    {
        FilterFill {
            filter: Filter {
                pixmap: pixmap_of(self.has_pixmap, self.pixmap),
                dest: box_of(self.dest),
                source_x: self.source_x,
                source_y: self.source_y,
            },
            paint_count: self.paint_count,
            panel: self.panel,
        }
    }
}

// Where the one look is not sure.
#[inline(never)]
#[tactic(auto, using(crate::proofs::Unheld::push_unheld))]
fn judged_push(state: &mut StateWords, tables: &mut Lent<'_>, props: &PropsWords) -> u32
    ensures same { SameLent tables.old tables.new }
    ensures kept { PushKeeps tables.old tables.new }
    ensures pushed { answer result (push_out state.new tables.new) ≡ push_on props.now state.old tables.old }
{
    let mut rows = Rows {
        state: tables.rows,
        render_cmds: tables.render_cmds,
        depth_cmds: tables.depth_cmds,
    };
    let Some(mut screen) = screen_of(state, props.flag <= 1) else {
        return refuse_build(state, &rows);
    };
    let given = props.given();
    let mut layers = Layers {
        table: tables.layers,
        opacities: tables.opacities,
    };
    let done = push_layer(&mut screen, &mut rows, &mut layers, given);
    leave(state, screen, done)
}

/// Rule 8. Flag 1: the layer has a clip, 0: it has none, any other is 4. Refused as `push_layer`.
#[unsafe(no_mangle)]
pub extern "C" fn coarse_push_layer(
    state: &mut StateWords,
    tables: &mut Lent<'_>,
    props: &PropsWords,
) -> u32
    ensures same { SameLent tables.old tables.new }
    ensures kept { PushKeeps tables.old tables.new }
    ensures pushed { answer result (push_out state.new tables.new) ≡ push_on props.now state.old tables.old }
{
    if !is_push_sure(state, tables, props) {
        return judged_push(state, tables, props);
    }
    let mut rows = Rows {
        state: tables.rows,
        render_cmds: tables.render_cmds,
        depth_cmds: tables.depth_cmds,
    };
    let mut screen = screen_at(state);
    let given = props.given();
    let mut layers = Layers {
        table: tables.layers,
        opacities: tables.opacities,
    };
    let done = push_judged(&mut screen, &mut rows, &mut layers, given);
    leave_push(state, screen, done)
}

/// Rules 9 and 10. The segments are the list that the layer's clip names a range of, five words each. Refused as `pop_layer`.
#[unsafe(no_mangle)]
#[tactic(auto, using(crate::proofs::Unheld::pop_unheld))]
pub extern "C" fn coarse_pop_layer(
    state: &mut StateWords,
    tables: &mut Lent<'_>,
    segments: &[u32],
) -> u32
    ensures same { SameLent tables.old tables.new }
    ensures kept { PopKeeps tables.old tables.new }
    ensures popped { answer result (words_in state.new, pop_in tables.new)
        ≡ pop_call segments.now (words_in state.old) (pop_in tables.old) }
{
    let mut rows = Rows {
        state: tables.rows,
        render_cmds: tables.render_cmds,
        depth_cmds: tables.depth_cmds,
    };
    let Some(mut screen) = screen_of(state, true) else {
        return refuse_build(state, &rows);
    };
    let mut layers = Layers {
        table: tables.layers,
        opacities: tables.opacities,
    };
    let done = pop_layer(
        &mut screen,
        &mut rows,
        &mut layers,
        tables.layer_attrs,
        segments,
    );
    leave(state, screen, done)
}

// The picture whose handle is there if the flag is 1.
fn pixmap_of(flag: u32, handle: u32) -> Option<u32>
    ensures { result ≡ picture flag handle }
{
    (flag == 1).then_some(handle)
}

// Where the one look is not sure.
#[inline(never)]
#[tactic(auto, using(crate::proofs::Unheld::filter_unheld))]
fn judged_filter(state: &mut StateWords, tables: &mut Lent<'_>, filter: &FilterWords) -> u32
    ensures same { SameLent tables.old tables.new }
    ensures kept { FilterKeeps tables.old tables.new }
    ensures filtered { answer result (filter_out state.new tables.new) ≡ filter_on filter.now state.old tables.old }
{
    let mut rows = Rows {
        state: tables.rows,
        render_cmds: tables.render_cmds,
        depth_cmds: tables.depth_cmds,
    };
    let Some(mut screen) = screen_of(state, filter.has_pixmap <= 1) else {
        return refuse_build(state, &rows);
    };
    let layer = filter.given();
    let done = filter_fill(
        &mut screen,
        &mut rows,
        tables.paint_attrs,
        tables.filter_paints,
        layer,
    );
    leave(state, screen, done)
}

/// Rule 11: a picture drawn into a box. has_pixmap 1: the picture is the one whose handle is pixmap, 0: there is none, any other is 4. Refused as
/// `filter_fill`.
#[unsafe(no_mangle)]
pub extern "C" fn coarse_filter_fill(
    state: &mut StateWords,
    tables: &mut Lent<'_>,
    filter: &FilterWords,
) -> u32
    ensures same { SameLent tables.old tables.new }
    ensures kept { FilterKeeps tables.old tables.new }
    ensures filtered { answer result (filter_out state.new tables.new) ≡ filter_on filter.now state.old tables.old }
{
    if !is_filter_sure(state, tables, filter) {
        return judged_filter(state, tables, filter);
    }
    let mut rows = Rows {
        state: tables.rows,
        render_cmds: tables.render_cmds,
        depth_cmds: tables.depth_cmds,
    };
    let mut screen = screen_at(state);
    let layer = filter.given();
    let done = filter_judged(
        &mut screen,
        &mut rows,
        tables.paint_attrs,
        tables.filter_paints,
        layer,
    );
    leave_filter(state, screen, done)
}
