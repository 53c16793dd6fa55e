// Finish: Activated or RolledBack to CleaningUp, which keeps where it came from.
ghost use Rattle.std.specs.Prelude.{◌≡◌, true, length};
ghost use Rattle.model.specs.Calls.{finish};
ghost use Rattle.model.specs.Sound.{sound_for};
ghost use Rattle.model.specs.Step.{step};
ghost use Rattle.state.specs.View.{view_state};
ghost use Rattle.state.specs.Outcome.{outcome, view_answered, SoundIfAccepted};
ghost use Rattle.session_calls.specs.Moved.{finish_origin, finish_called, finish_called_on_sound};

use crate::moves::move_to;
use refusal::Refusal;
use soundness::sound::sound;
use state::answer::{Answer, Answered, refuse};
use state::permissions::FINISH;
use state::phase::{CleanUpOrigin, Phase};
use state::state::State;

// Says where CleaningUp comes from: of the two states that allow Finish, Activated or else RolledBack.
#[tactic(auto, unfolding(crate::specs::Moved::finish_origin))]
fn finish_origin(phase: Phase) -> CleanUpOrigin
    ensures { result ≡ finish_origin phase }
{
    match phase {
        Phase::Activated => CleanUpOrigin::Activated,
        _ => CleanUpOrigin::RolledBack,
    }
}

// Makes the call after refusal 1. Precondition: the state is sound for the store; `finish` and `manager::call` check it.
pub fn finish_on_sound(s: State, store: &[u8]) -> Answered<Answer>
    requires { sound_for (view_state s) (length store.now) ≡ true }
    ensures { outcome result store.now ≡ finish_called_on_sound s store.now }
{
    move_to(s, FINISH, Phase::CleaningUp(finish_origin(s.phase)))
}

// Finish: moves Activated or RolledBack to CleaningUp, which keeps where it came from.
pub fn finish(s: State, store: &[u8]) -> Answered<Answer>
    ensures meaning { view_answered result store.now ≡ step (view_state s) store.now finish }
    ensures exact { outcome result store.now ≡ finish_called s store.now }
    ensures sound { SoundIfAccepted (outcome result store.now) }
{
    if !sound(s, store.len()) {
        return refuse(s, Refusal::BadState);
    }
    finish_on_sound(s, store)
}
