//! Each call of `depth`, its `forms` among them.
ghost use Rattle.std.specs.Prelude.{◌≡◌};
ghost use Rattle.screen.specs.Depths.{depths_in};

use crate::Twice;
use depth::forms::{Visible, include_span, included_span, list_visible_spans, visible_spans};
use depth::{
    Depth, DepthState, Split, is_hidden, split_opaque_span, unset_runs, unset_runs_and_write,
    visible_runs,
};
use sizes::answers::Refusal;
use sizes::width::Width;
use span::{BucketRange, TileSpan};

/// Two calls of `split_opaque_span`.
pub fn split_twice(span: TileSpan, width: Width) -> Twice<Result<Split, Refusal>>
    ensures { result.0 ≡ result.1 }
{
    (
        split_opaque_span(span, width),
        split_opaque_span(span, width),
    )
}

/// Two calls of `DepthState::new`.
pub fn fresh_twice() -> Twice<DepthState>
    ensures { result.0 ≡ result.1 }
{
    (DepthState::new(), DepthState::new())
}

/// Two calls of `DepthState::include_span`.
pub fn include_twice(state: DepthState, span: TileSpan, draw_id: u32) -> Twice<DepthState>
    ensures { result.0 ≡ result.1 }
{
    (
        state.include_span(span, draw_id),
        state.include_span(span, draw_id),
    )
}

/// Two calls of `DepthState::can_skip`.
pub fn skip_twice(state: DepthState, span: TileSpan, draw_id: u32) -> Twice<Result<bool, Refusal>>
    ensures { result.0 ≡ result.1 }
{
    (state.can_skip(span, draw_id), state.can_skip(span, draw_id))
}

/// Two calls of `visible_runs`.
pub fn visible_twice(
    a: &[u32],
    a_list: &mut [u32],
    b: &[u32],
    b_list: &mut [u32],
    span: TileSpan,
    draw_id: u32,
    width: Width,
) -> Twice<Result<usize, Refusal>>
    ensures { (a.now ≡ b.now) × (a_list.old ≡ b_list.old)
        → (result.0 ≡ result.1) × (a_list.new ≡ b_list.new) }
{
    (
        visible_runs(a, span, draw_id, a_list, width),
        visible_runs(b, span, draw_id, b_list, width),
    )
}

/// Two calls of `unset_runs`.
pub fn unset_twice(
    a: &[u32],
    a_list: &mut [u32],
    b: &[u32],
    b_list: &mut [u32],
    span: TileSpan,
    width: Width,
) -> Twice<Result<usize, Refusal>>
    ensures { (a.now ≡ b.now) × (a_list.old ≡ b_list.old)
        → (result.0 ≡ result.1) × (a_list.new ≡ b_list.new) }
{
    (
        unset_runs(a, span, a_list, width),
        unset_runs(b, span, b_list, width),
    )
}

/// Two calls of `unset_runs_and_write`.
pub fn write_twice(
    a: &mut Depth<'_>,
    a_list: &mut [u32],
    b: &mut Depth<'_>,
    b_list: &mut [u32],
    range: BucketRange,
    draw_id: u32,
) -> Twice<Result<usize, Refusal>>
    ensures { (depths_in a.old ≡ depths_in b.old) × (a_list.old ≡ b_list.old)
        → (result.0 ≡ result.1) × (depths_in a.new ≡ depths_in b.new) × (a_list.new ≡ b_list.new) }
{
    (
        unset_runs_and_write(a, range, draw_id, a_list),
        unset_runs_and_write(b, range, draw_id, b_list),
    )
}

/// Two calls of `is_hidden`.
pub fn hidden_twice(
    a: &[u32],
    b: &[u32],
    buckets: usize,
    range: BucketRange,
    draw_id: u32,
) -> Twice<Result<bool, Refusal>>
    ensures { a.now ≡ b.now → result.0 ≡ result.1 }
{
    (
        is_hidden(a, buckets, range, draw_id),
        is_hidden(b, buckets, range, draw_id),
    )
}

/// Two calls of `forms::include_span`.
pub fn include_there_twice(a: &mut DepthState, b: &mut DepthState, span: TileSpan, draw_id: u32)
    ensures { a.old ≡ b.old → a.new ≡ b.new }
{
    include_span(a, span, draw_id);
    include_span(b, span, draw_id);
}

/// Two calls of `forms::included_span`.
pub fn included_twice(state: DepthState, span: TileSpan, draw_id: u32) -> Twice<DepthState>
    ensures { result.0 ≡ result.1 }
{
    (
        included_span(state, span, draw_id),
        included_span(state, span, draw_id),
    )
}

/// Two calls of `forms::visible_spans`.
pub fn visible_spans_twice(
    a: &[u32],
    b: &[u32],
    span: TileSpan,
    draw_id: u32,
    width: Width,
) -> Twice<Result<Visible, Refusal>>
    ensures { a.now ≡ b.now → result.0 ≡ result.1 }
{
    (
        visible_spans(a, span, draw_id, width),
        visible_spans(b, span, draw_id, width),
    )
}

/// Two calls of `forms::list_visible_spans`.
pub fn list_spans_twice(
    a: &[u32],
    a_list: &mut [TileSpan],
    b: &[u32],
    b_list: &mut [TileSpan],
    span: TileSpan,
    draw_id: u32,
    width: Width,
) -> Twice<Result<usize, Refusal>>
    ensures { (a.now ≡ b.now) × (a_list.old ≡ b_list.old)
        → (result.0 ≡ result.1) × (a_list.new ≡ b_list.new) }
{
    (
        list_visible_spans(a, span, draw_id, a_list, width),
        list_visible_spans(b, span, draw_id, b_list, width),
    )
}
