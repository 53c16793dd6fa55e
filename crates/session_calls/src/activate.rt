// Activate: Ready to Activating.
ghost use Rattle.std.specs.Prelude.{◌≡◌, true, length};
ghost use Rattle.model.specs.Calls.{activate};
ghost use Rattle.model.specs.Sound.{sound_for};
ghost use Rattle.model.specs.Step.{step};
ghost use Rattle.state.specs.View.{view_state};
ghost use Rattle.state.specs.Outcome.{outcome, view_answered, SoundIfAccepted};
ghost use Rattle.session_calls.specs.Moved.{activate_called, activate_called_on_sound};

use crate::moves::move_to;
use refusal::Refusal;
use soundness::sound::sound;
use state::answer::{Answer, Answered, refuse};
use state::permissions::ACTIVATE;
use state::phase::Phase;
use state::state::State;

// Makes the call after refusal 1. Precondition: the state is sound for the store; `activate`, `manager::call` and the old Activate check
// it.
pub fn activate_on_sound(s: State, store: &[u8]) -> Answered<Answer>
    requires { sound_for (view_state s) (length store.now) ≡ true }
    ensures { outcome result store.now ≡ activate_called_on_sound s store.now }
{
    move_to(s, ACTIVATE, Phase::Activating)
}

// Activate: moves Ready to Activating.
pub fn activate(s: State, store: &[u8]) -> Answered<Answer>
    ensures meaning { view_answered result store.now ≡ step (view_state s) store.now activate }
    ensures exact { outcome result store.now ≡ activate_called s store.now }
    ensures sound { SoundIfAccepted (outcome result store.now) }
{
    if !sound(s, store.len()) {
        return refuse(s, Refusal::BadState);
    }
    activate_on_sound(s, store)
}
