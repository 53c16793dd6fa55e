// The old Revert.
ghost use Rattle.std.specs.Prelude.{◌≡◌, length};
ghost use Rattle.model.specs.Sound.{sound_for};
ghost use Rattle.state.specs.View.{view_state};
ghost use Rattle.four_state.specs.declared.call.OldCall.TheVariants.{Revert};
ghost use Rattle.four_state.specs.OldCalls.{old_step};
ghost use Rattle.four_state.specs.Exact.{old_outcome, view_old_answered, exact_old_step, SoundIfZero};

use crate::answer::answer_by;
use session_calls::revert::revert_on_sound;
use soundness::sound::sound;
use state::answer::{Answered, answer_with};
use state::phase::Phase;
use state::state::State;

// Source document 002's numbers.
const NOTHING_TO_REVERT: u8 = 1;

const NOT_ABLE_TO_REVERT: u8 = 2;

// Makes the call after the check of soundness. Precondition: `is_sound` is what the check says of the state and the store; `revert` makes
// the check, and who calls `old_call_after_check` has made it.
pub fn revert_after_check(s: State, is_sound: bool, store: &[u8]) -> Answered<u8>
    requires { is_sound ≡ sound_for (view_state s) (length store.now) }
    ensures { old_outcome result store.now ≡ exact_old_step s store.now Revert }
{
    if !is_sound {
        return answer_with(NOT_ABLE_TO_REVERT, s);
    }
    if matches!(s.phase, Phase::Idle) {
        return answer_with(NOTHING_TO_REVERT, s);
    }
    answer_by(revert_on_sound(s, store), NOT_ABLE_TO_REVERT)
}

// Revert: begins to revert the processed packages.
pub fn revert(s: State, store: &[u8]) -> Answered<u8>
    ensures meaning { view_old_answered result store.now ≡ old_step (view_state s) store.now Revert }
    ensures exact { old_outcome result store.now ≡ exact_old_step s store.now Revert }
    ensures sound { SoundIfZero (old_outcome result store.now) }
{
    revert_after_check(s, sound(s, store.len()), store)
}
