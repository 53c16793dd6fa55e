// The old Rollback.
ghost use Rattle.std.specs.Prelude.{◌≡◌, length};
ghost use Rattle.model.specs.Sound.{sound_for};
ghost use Rattle.state.specs.View.{view_state};
ghost use Rattle.four_state.specs.declared.call.OldCall.TheVariants.{Rollback};
ghost use Rattle.four_state.specs.OldCalls.{old_step};
ghost use Rattle.four_state.specs.Exact.{old_outcome, view_old_answered, exact_old_step, SoundIfZero};

use crate::answer::answer_by;
use session_calls::rollback::rollback_on_sound;
use soundness::sound::sound;
use state::answer::{Answered, answer_with};
use state::phase::Phase;
use state::state::State;

// Source document 002's numbers.
const NOTHING_TO_ROLL_BACK: u8 = 1;

const NOT_ABLE_TO_ROLL_BACK: u8 = 2;

// Makes the call after the check of soundness. Precondition: `is_sound` is what the check says of the state and the store; `rollback` makes
// the check, and who calls `old_call_after_check` has made it.
pub fn rollback_after_check(s: State, is_sound: bool, store: &[u8]) -> Answered<u8>
    requires { is_sound ≡ sound_for (view_state s) (length store.now) }
    ensures { old_outcome result store.now ≡ exact_old_step s store.now Rollback }
{
    if !is_sound {
        return answer_with(NOT_ABLE_TO_ROLL_BACK, s);
    }
    if matches!(s.phase, Phase::Idle | Phase::Ready) {
        return answer_with(NOTHING_TO_ROLL_BACK, s);
    }
    answer_by(rollback_on_sound(s, store), NOT_ABLE_TO_ROLL_BACK)
}

// Rollback: begins to roll back the activated packages.
pub fn rollback(s: State, store: &[u8]) -> Answered<u8>
    ensures meaning { view_old_answered result store.now ≡ old_step (view_state s) store.now Rollback }
    ensures exact { old_outcome result store.now ≡ exact_old_step s store.now Rollback }
    ensures sound { SoundIfZero (old_outcome result store.now) }
{
    rollback_after_check(s, sound(s, store.len()), store)
}
