//! The numbers of the answers, in code, are those of the rules.
ghost use Rattle.std.specs.Prelude.{◌≡◌, [], ◌∷◌};
ghost use Rattle.rules.specs.Answers.{Done, BadArena, BadViewport, BadForm, BadRecord, BadOrder, Deep, NoLayer, Ids, FullAttrs, FullRow, FullDepth, BadRun, Open, NoRoom, HasPanels};

use sizes::answers::{Refusal, answer_number};

// All sixteen, from 0, done, up.
fn tied_answers() -> [u32; 16]
    ensures { result ≡ Done ∷ BadArena ∷ BadViewport ∷ BadForm ∷ BadRecord ∷ BadOrder ∷ Deep ∷ NoLayer
        ∷ Ids ∷ FullAttrs ∷ FullRow ∷ FullDepth ∷ BadRun ∷ Open ∷ NoRoom ∷ HasPanels ∷ [] }
{
    [
        answer_number(Ok(())),
        Refusal::BadArena.number(),
        Refusal::BadViewport.number(),
        Refusal::BadForm.number(),
        Refusal::BadRecord.number(),
        Refusal::BadOrder.number(),
        Refusal::Deep.number(),
        Refusal::NoLayer.number(),
        Refusal::Ids.number(),
        Refusal::FullAttrs.number(),
        Refusal::FullRow.number(),
        Refusal::FullDepth.number(),
        Refusal::BadRun.number(),
        Refusal::Open.number(),
        Refusal::NoRoom.number(),
        Refusal::HasPanels.number(),
    ]
}
