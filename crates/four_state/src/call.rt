// The old calls by value, and one entry for the four that change the state.
ghost use Rattle.std.specs.Prelude.{◌≡◌, length};
ghost use Rattle.model.specs.Sound.{sound_for};
ghost use Rattle.state.specs.View.{view_state};
ghost use Rattle.four_state.specs.OldCalls.{old_step};
ghost use Rattle.four_state.specs.Exact.{old_outcome, view_old_answered, exact_old_step, SoundIfZero};

use crate::activate::activate_after_check;
use crate::cancel::cancel_after_check;
use crate::revert::revert_after_check;
use crate::rollback::rollback_after_check;
use soundness::sound::sound;
use state::answer::Answered;
use state::state::State;

// The four that change the state. Cancel has a transfer id.
#[derive(Clone, Copy)]
pub enum OldCall {
    Activate,
    Cancel(u32),
    Revert,
    Rollback,
}

// Makes one of the four after the check of soundness. Precondition: `is_sound` is what the check says of the state and the store;
// `old_call` makes the check for one call, `call_list` for a list of calls.
pub fn old_call_after_check(s: State, is_sound: bool, store: &[u8], call: OldCall) -> Answered<u8>
    requires { is_sound ≡ sound_for (view_state s) (length store.now) }
    ensures { old_outcome result store.now ≡ exact_old_step s store.now call }
{
    match call {
        OldCall::Activate => activate_after_check(s, is_sound, store),
        OldCall::Cancel(id) => cancel_after_check(s, is_sound, store, id),
        OldCall::Revert => revert_after_check(s, is_sound, store),
        OldCall::Rollback => rollback_after_check(s, is_sound, store),
    }
}

// Makes one of the four, from any state and bytes.
pub fn old_call(s: State, store: &[u8], call: OldCall) -> Answered<u8>
    ensures meaning { view_old_answered result store.now ≡ old_step (view_state s) store.now call }
    ensures exact { old_outcome result store.now ≡ exact_old_step s store.now call }
    ensures sound { SoundIfZero (old_outcome result store.now) }
{
    old_call_after_check(s, sound(s, store.len()), store, call)
}
