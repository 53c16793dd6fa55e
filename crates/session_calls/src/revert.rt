// Revert: Ready to CleaningUp.
ghost use Rattle.std.specs.Prelude.{◌≡◌, true, length};
ghost use Rattle.model.specs.Calls.{revert};
ghost use Rattle.model.specs.Sound.{sound_for};
ghost use Rattle.model.specs.Step.{step};
ghost use Rattle.state.specs.View.{view_state};
ghost use Rattle.state.specs.Outcome.{outcome, view_answered, SoundIfAccepted};
ghost use Rattle.session_calls.specs.Moved.{revert_called, revert_called_on_sound};

use crate::moves::move_to;
use refusal::Refusal;
use soundness::sound::sound;
use state::answer::{Answer, Answered, refuse};
use state::permissions::REVERT;
use state::phase::{CleanUpOrigin, Phase};
use state::state::State;

// Makes the call after refusal 1. Precondition: the state is sound for the store; `revert`, `manager::call` and the old Revert check it.
pub fn revert_on_sound(s: State, store: &[u8]) -> Answered<Answer>
    requires { sound_for (view_state s) (length store.now) ≡ true }
    ensures { outcome result store.now ≡ revert_called_on_sound s store.now }
{
    move_to(s, REVERT, Phase::CleaningUp(CleanUpOrigin::Ready))
}

// Revert: moves Ready to CleaningUp.
pub fn revert(s: State, store: &[u8]) -> Answered<Answer>
    ensures meaning { view_answered result store.now ≡ step (view_state s) store.now revert }
    ensures exact { outcome result store.now ≡ revert_called s store.now }
    ensures sound { SoundIfAccepted (outcome result store.now) }
{
    if !sound(s, store.len()) {
        return refuse(s, Refusal::BadState);
    }
    revert_on_sound(s, store)
}
