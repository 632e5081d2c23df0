//! The recording call: a file is judged, and walked as building steps (rule 2). `bucket_recording` is a public call; `play` is a part of it.
ghost use Rattle.std.specs.Prelude.{◌≡◌};
ghost use Rattle.sizes.specs.Refusals.{answer_number};
ghost use Rattle.rules.specs.Answers.{answer};
ghost use Rattle.screen.specs.Screens.{setup-of};
ghost use Rattle.screen.specs.Lent.{whole, SameLent};
ghost use Rattle.file.specs.Held.{file_of, held, FitsIn};
ghost use Rattle.walk.specs.Recorded.{played-once, recorded};

use crate::nodes::walk_nodes;
use file::{File, Recording};
use screen::{Lent, Screen, Setup, reset};
use sizes::MOST_LAYERS;
use sizes::answers::Refusal;

// A recording of good form, its viewport reset: 4 or 5 for its records, then the first refused step of the walk from the root, 16 layers deep.
fn play(screen: &mut Screen, file: &Recording<'_>, lent: &mut Lent<'_>) -> Result<(), Refusal>
    requires { FitsIn file.now }
    ensures same { SameLent lent.old lent.new }
    ensures played { answer (answer_number result) (whole screen.new lent.new)
        ≡ played-once (held file.now) (whole screen.old lent.old) }
{
    file.judge()?;
    let (first, end) = file.root();
    walk_nodes(MOST_LAYERS, screen, file, first, end, lent)
}

/// Rule 2: a recording file, in a setup. 3 for its form, then 2, 1 or 4 as a reset of its viewport, with nothing changed; then 4 and 5 for its
/// records, or the number of the first refused step of its walk, with the screen freshly reset and its words as a reset leaves them.
pub fn bucket_recording(
    screen: &mut Screen,
    file: File<'_>,
    setup: Setup,
    lent: &mut Lent<'_>,
) -> Result<(), Refusal>
    ensures same { SameLent lent.old lent.new }
    ensures recorded { answer (answer_number result) (whole screen.new lent.new)
        ≡ recorded (file_of file.entry) (setup-of setup) (whole screen.old lent.old) }
{
    let recording = Recording::read(file)?;
    let fresh = reset(recording.viewport(), setup, lent)?;
    *screen = fresh;
    if let Err(refusal) = play(screen, &recording, lent) {
        *screen = fresh;
        lent.clear(fresh);
        return Err(refusal);
    }
    Ok(())
}
