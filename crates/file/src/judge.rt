//! The recording file's records (answer 4) and their order (answer 5). Every record is judged, also one that no walk reaches. Parts: a caller has read the
//! form. `at` is a record's place among the file's words.
ghost use Rattle.std.specs.Prelude.{◌≡◌, true, ◌+◌, ◌*◌, ◌/◌, ◌≤◌, length, get_or};
ghost use Rattle.sizes.specs.Refusals.{answer_number};
ghost use Rattle.rules.specs.Lists.{every, slice};
ghost use Rattle.rules.specs.Segments.{good-segment, ordered};
ghost use Rattle.rules.specs.Spans.{good-range};
ghost use Rattle.rules.specs.Inputs.{good-paint};
ghost use Rattle.rules.specs.Recording.{recording, good-records, good-order};
ghost use Rattle.segments.specs.Segs.{segs-of};
ghost use Rattle.file.specs.Layouts.{Fits, sections_at};
ghost use Rattle.file.specs.Places.{paint_from, paints-at, segments-at, draws-at, layers-at, nodes-at};
ghost use Rattle.file.specs.Records.{layer-of};
ghost use Rattle.file.specs.Judging.{node_fields, draw_range, clip_range, draw_ordered, clip_ordered, judged};
ghost use Rattle.file.specs.Counted.{draws-good, layers-good, counted};

use crate::form::{Layout, Section};
use crate::records::{Layer, layer_at, node_at, root_at};
use inputs::draws::draw_at;
use inputs::is_good_range;
use segments::{NO_SEGMENT, segment_at};
use sizes::answers::Refusal;
use sizes::{HANDLE_END, NODE, PAINT, SEGMENT};

// The paint at a place.
#[tactic(auto, unfolding(crate::specs::Places::paint_from))]
fn is_good_paint(w: &[u32], at: usize) -> bool
    requires { at + 4 ≤ length w.now }
    ensures { result ≡ good-paint (paint_from w.now at) }
{
    w[at] <= 1 && w[at + 1] < HANDLE_END
}

fn good_paints(w: &[u32], paints: Section) -> bool
    requires { paints.at + 4 * paints.count ≤ length w.now }
    ensures { result ≡ every good-paint (paints-at w.now paints) }
{
    (0..paints.count).all(|i| is_good_paint(w, paints.at + PAINT * i))
}

fn good_segments(w: &[u32], segments: Section) -> bool
    requires { segments.at + 5 * segments.count ≤ length w.now }
    ensures { result ≡ every good-segment (segments-at w.now segments) }
{
    let list = &w[segments.at..segments.at + SEGMENT * segments.count];
    (0..segments.count).all(|i| segment_at(list, i).is_good())
}

fn good_draws(w: &[u32], l: Layout) -> bool
    requires { Fits w.now l }
    ensures { result ≡ draws-good l w.now }
{
    let size = l.edition.draw();
    (0..l.draws.count).all(|i| {
        draw_at(w, l.edition, l.draws.at + size * i).is_good(l.paints.count, l.segments.count)
    })
}

fn good_layers(w: &[u32], l: Layout) -> bool
    requires { Fits w.now l }
    ensures { result ≡ layers-good l w.now }
{
    let size = l.edition.layer();
    (0..l.layers.count).all(|i| {
        layer_at(w, l.layers.at + size * i, l.edition).is_good(l.nodes.count, l.segments.count)
    })
}

fn good_nodes(w: &[u32], nodes: Section, draws: usize, layers: usize) -> bool
    requires { nodes.at + 3 * nodes.count ≤ length w.now }
    ensures { result ≡ every (node_fields draws layers) (nodes-at w.now nodes) }
{
    (0..nodes.count).all(|i| node_at(w, nodes.at + NODE * i).is_good(draws, layers))
}

// The root at a place.
fn is_good_root(w: &[u32], at: usize, nodes: usize) -> bool
    requires { at + 2 ≤ length w.now }
    ensures { result ≡ good-range (get_or w.now at 0) (get_or w.now (at + 1) 0) nodes }
{
    let (start, end) = root_at(w, at);
    is_good_range(start, end, nodes)
}

// Every record of a file, also one that no walk reaches.
#[tactic(auto, unfolding(crate::specs::Counted::counted))]
fn good_records(w: &[u32], l: Layout) -> bool
    requires { Fits w.now l }
    ensures { result ≡ counted l w.now }
{
    good_paints(w, l.paints)
        && good_segments(w, l.segments)
        && good_draws(w, l)
        && good_layers(w, l)
        && good_nodes(w, l.nodes, l.draws.count, l.layers.count)
        && is_good_root(w, l.root.at, l.nodes.count)
}

// The segments from start to end stand in order.
fn is_ordered(list: &[u32], start: usize, end: usize) -> bool
    requires range { good-range start «end» (length list.now / 5) ≡ true }
    requires good { every good-segment (segs-of list.now) ≡ true }
    ensures { result ≡ ordered (slice start «end» (segs-of list.now)) }
{
    let mut last = NO_SEGMENT;
    for i in start..end {
        let next = segment_at(list, i);
        if !last.precedes(next) {
            return false;
        }
        last = next;
    }
    true
}

// The segments of a layer's clip stand in order, if there is a clip.
fn is_clip_ordered(layer: Layer, list: &[u32]) -> bool
    requires range { clip_range (length list.now / 5) (layer-of layer) ≡ true }
    requires good { every good-segment (segs-of list.now) ≡ true }
    ensures { result ≡ clip_ordered (segs-of list.now) (layer-of layer) }
{
    if layer.flag == 1 {
        is_ordered(list, layer.clip.start as usize, layer.clip.end as usize)
    } else {
        true
    }
}

// Every draw's list, by itself.
fn draws_ordered(w: &[u32], l: Layout, list: &[u32]) -> bool
    requires fits { Fits w.now l }
    requires ranges { every (draw_range (length list.now / 5)) (draws-at w.now l) ≡ true }
    requires good { every good-segment (segs-of list.now) ≡ true }
    ensures { result ≡ every (draw_ordered (segs-of list.now)) (draws-at w.now l) }
{
    let size = l.edition.draw();
    (0..l.draws.count).all(|i| {
        let draw = draw_at(w, l.edition, l.draws.at + size * i);
        is_ordered(list, draw.start, draw.end)
    })
}

// Every present clip's list, by itself.
fn clips_ordered(w: &[u32], l: Layout, list: &[u32]) -> bool
    requires fits { Fits w.now l }
    requires ranges { every (clip_range (length list.now / 5)) (layers-at w.now l) ≡ true }
    requires good { every good-segment (segs-of list.now) ≡ true }
    ensures { result ≡ every (clip_ordered (segs-of list.now)) (layers-at w.now l) }
{
    let size = l.edition.layer();
    (0..l.layers.count).all(|i| {
        is_clip_ordered(layer_at(w, l.layers.at + size * i, l.edition), list)
    })
}

// Every list of good records: a draw's, a present clip's, each by itself.
fn good_order(w: &[u32], l: Layout) -> bool
    requires fits { Fits w.now l }
    requires good { good-records (recording (sections_at l w.now)) ≡ true }
    ensures { result ≡ good-order (recording (sections_at l w.now)) }
{
    let list = &w[l.segments.at..l.segments.at + SEGMENT * l.segments.count];
    draws_ordered(w, l, list) && clips_ordered(w, l, list)
}

/// BadRecord, 4, if a record is bad, then BadOrder, 5, if a list is out of order.
pub fn judge_records(w: &[u32], l: Layout) -> Result<(), Refusal>
    requires { Fits w.now l }
    ensures { answer_number result ≡ judged (recording (sections_at l w.now)) }
{
    if !good_records(w, l) {
        return Err(Refusal::BadRecord);
    }
    if !good_order(w, l) {
        return Err(Refusal::BadOrder);
    }
    Ok(())
}
