//! A row's depth summary, updated where it stands (depth.rs, include_span). `depth::state` has the form by value.
ghost use Rattle.std.specs.Prelude.{◌≡◌};
ghost use Rattle.rules.specs.Depth.{included};
ghost use Rattle.span.specs.Spans.{tiles};
ghost use Rattle.depth.specs.Answers.{summary};

use crate::DepthState;
use span::TileSpan;

/// One depth fill more, of these tiles and this id, in the summary that is lent.
pub fn include_span(state: &mut DepthState, span: TileSpan, draw_id: u32)
    ensures { summary state.new ≡ included (summary state.old) (tiles span) draw_id }
{
    *state = DepthState::include_span(*state, span, draw_id);
}

/// The summary with one depth fill more: a local is lent, and given back.
pub fn included_span(state: DepthState, span: TileSpan, draw_id: u32) -> DepthState
    ensures { summary result ≡ included (summary state) (tiles span) draw_id }
{
    let mut here = state;
    include_span(&mut here, span, draw_id);
    here
}
