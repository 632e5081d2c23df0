//! The walk over a recording (rule 2; bucketer.rs, bucket_commands): over a run of nodes, and over a layer, which call each other. Parts: callers have read the
//! form and judged the records.
ghost use Rattle.std.specs.Prelude.{◌≡◌, ◌≤◌, length};
ghost use Rattle.sizes.specs.Refusals.{answer_number};
ghost use Rattle.rules.specs.Answers.{answer};
ghost use Rattle.screen.specs.Lent.{whole, SameLent};
ghost use Rattle.walk.specs.Steps.{nodes-walked, layer-walked};
ghost use Rattle.file.specs.Held.{held};
ghost use Rattle.walk.specs.Ready.{JudgedIn};

use crate::read::to_props;
use crate::steps::{pop_at, push_at, walk_draws, walk_filter};
use file::Recording;
use screen::{Lent, Screen};
use sizes::answers::Refusal;

/// Nodes a to b, each its draws and then its layer, up to the first step that is refused. Layers in them may be nested `depth` deep.
#[cycle(walk)]
pub fn walk_nodes(
    depth: u32,
    screen: &mut Screen,
    file: &Recording<'_>,
    a: usize,
    b: usize,
    lent: &mut Lent<'_>,
) -> Result<(), Refusal>
    requires ready { JudgedIn file.now }
    requires order { a ≤ b }
    requires ends { b ≤ length (held file.now).nodes }
    ensures same { SameLent lent.old lent.new }
    ensures walked { answer (answer_number result) (whole screen.new lent.new)
        ≡ nodes-walked (held file.now) depth a b (whole screen.old lent.old) }
{
    for i in a..b {
        let node = file.node(i);
        walk_draws(screen, file, node.start as usize, node.end as usize, lent)?;
        walk_layer(depth, screen, file, node.layer, lent)?;
    }
    Ok(())
}

/// The layer that a node names by its number + 1; 0 names none. A regular layer is pushed, its nodes walked, popped. With no depth left 16 layers
/// are open, and the push is refused.
#[cycle(walk)]
pub fn walk_layer(
    depth: u32,
    screen: &mut Screen,
    file: &Recording<'_>,
    layer: u32,
    lent: &mut Lent<'_>,
) -> Result<(), Refusal>
    requires ready { JudgedIn file.now }
    requires named { layer ≤ length (held file.now).layers }
    ensures same { SameLent lent.old lent.new }
    ensures walked { answer (answer_number result) (whole screen.new lent.new)
        ≡ layer-walked (held file.now) depth layer (whole screen.old lent.old) }
{
    if layer == 0 {
        return Ok(());
    }
    let record = file.layer((layer - 1) as usize);
    if record.kind != 0 {
        return walk_filter(screen, file, record, lent);
    }
    push_at(screen, to_props(record), lent)?;
    if depth == 0 {
        return Ok(());
    }
    let first = record.start as usize;
    let end = record.end as usize;
    walk_nodes(depth - 1, screen, file, first, end, lent)?;
    pop_at(screen, file, record, lent)
}
