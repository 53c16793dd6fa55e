// Rollback: Verifying or Activated to RollingBack, which keeps where it came from.
ghost use Rattle.std.specs.Prelude.{◌≡◌, true, length};
ghost use Rattle.model.specs.Calls.{rollback};
ghost use Rattle.model.specs.Sound.{sound_for};
ghost use Rattle.model.specs.Step.{step};
ghost use Rattle.state.specs.View.{view_state};
ghost use Rattle.state.specs.Outcome.{outcome, view_answered, SoundIfAccepted};
ghost use Rattle.session_calls.specs.Moved.{rollback_origin, rollback_called, rollback_called_on_sound};

use crate::moves::move_to;
use refusal::Refusal;
use soundness::sound::sound;
use state::answer::{Answer, Answered, refuse};
use state::permissions::ROLLBACK;
use state::phase::{Phase, RollbackOrigin};
use state::state::State;

// Says where RollingBack comes from: of the two states that allow Rollback, Verifying or else Activated.
#[tactic(auto, unfolding(crate::specs::Moved::rollback_origin))]
fn rollback_origin(phase: Phase) -> RollbackOrigin
    ensures { result ≡ rollback_origin phase }
{
    match phase {
        Phase::Verifying => RollbackOrigin::Verifying,
        _ => RollbackOrigin::Activated,
    }
}

// Makes the call after refusal 1. Precondition: the state is sound for the store; `rollback`, `manager::call` and the old Rollback check
// it.
pub fn rollback_on_sound(s: State, store: &[u8]) -> Answered<Answer>
    requires { sound_for (view_state s) (length store.now) ≡ true }
    ensures { outcome result store.now ≡ rollback_called_on_sound s store.now }
{
    move_to(s, ROLLBACK, Phase::RollingBack(rollback_origin(s.phase)))
}

// Rollback: moves Verifying or Activated to RollingBack, which keeps where it came from.
pub fn rollback(s: State, store: &[u8]) -> Answered<Answer>
    ensures meaning { view_answered result store.now ≡ step (view_state s) store.now rollback }
    ensures exact { outcome result store.now ≡ rollback_called s store.now }
    ensures sound { SoundIfAccepted (outcome result store.now) }
{
    if !sound(s, store.len()) {
        return refuse(s, Refusal::BadState);
    }
    rollback_on_sound(s, store)
}
