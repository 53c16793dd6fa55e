// The lines of the old calls.
ghost use Rattle.std.specs.Prelude.{◌≡◌};
ghost use Rattle.script_calls.specs.Kept.{line_outcome};
ghost use Rattle.script_calls.specs.Line.{calling_old};

use crate::kept::{Kept, LineAnswer, Played};
use crate::lent::lent;
use four_state::call::{OldCall, old_call};

// Makes an old call on the bytes that are lent.
pub fn play_old(kept: Kept, bytes: &[u8], call: OldCall) -> Played
    ensures { line_outcome result bytes.now ≡ calling_old call kept bytes.now }
{
    let count = lent(kept.store_length, bytes.len());
    let made = old_call(kept.state, &bytes[..count], call);
    Played {
        answer: LineAnswer::Old(made.answer),
        kept: Kept {
            state: made.state,
            ..kept
        },
    }
}
