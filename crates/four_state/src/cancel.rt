// The old Cancel.
ghost use Rattle.std.specs.Prelude.{◌≡◌, length};
ghost use Rattle.model.specs.Sound.{sound_for};
ghost use Rattle.state.specs.View.{view_state};
ghost use Rattle.four_state.specs.declared.call.OldCall.TheVariants.{Cancel};
ghost use Rattle.four_state.specs.OldCalls.{old_step};
ghost use Rattle.four_state.specs.Exact.{old_outcome, view_old_answered, exact_old_step, SoundIfZero};

use crate::answer::answer_by;
use cancel_processing::cancel_on_sound;
use soundness::sound::sound;
use state::answer::{Answered, answer_with};
use state::permissions::{CANCEL, allowed};
use state::state::State;

// Source document 002's numbers.
const ERROR: u8 = 1;

const OPERATION_NOT_PERMITTED: u8 = 2;

// Makes the call after the check of soundness. Precondition: `is_sound` is what the check says of the state and the store; `cancel` makes
// the check, and who calls `old_call_after_check` has made it.
pub fn cancel_after_check(s: State, is_sound: bool, store: &[u8], id: u32) -> Answered<u8>
    requires { is_sound ≡ sound_for (view_state s) (length store.now) }
    ensures { old_outcome result store.now ≡ exact_old_step s store.now (Cancel id) }
{
    if !is_sound {
        return answer_with(ERROR, s);
    }
    if !allowed(s.phase, CANCEL) {
        return answer_with(OPERATION_NOT_PERMITTED, s);
    }
    answer_by(cancel_on_sound(s, store, id), ERROR)
}

// Cancel: notes a cancel of the package with a transfer id.
pub fn cancel(s: State, store: &[u8], id: u32) -> Answered<u8>
    ensures meaning { view_old_answered result store.now ≡ old_step (view_state s) store.now (Cancel id) }
    ensures exact { old_outcome result store.now ≡ exact_old_step s store.now (Cancel id) }
    ensures sound { SoundIfZero (old_outcome result store.now) }
{
    cancel_after_check(s, sound(s, store.len()), store, id)
}
