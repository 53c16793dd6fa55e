// The old Activate.
ghost use Rattle.std.specs.Prelude.{◌≡◌, true, not, ◌&&◌, ◌≤◌, length};
ghost use Rattle.clusters.specs.Table.{needs_met};
ghost use Rattle.model.specs.Tables.{staged};
ghost use Rattle.model.specs.Sound.{session_sound, sound_for};
ghost use Rattle.state.specs.View.{view_phase, entries_most, view_session, view_state};
ghost use Rattle.four_state.specs.declared.call.OldCall.TheVariants.{Activate};
ghost use Rattle.four_state.specs.OldCalls.{is_ready, old_step};
ghost use Rattle.four_state.specs.Exact.{old_outcome, view_old_answered, exact_old_step, answered_on_sound, SoundIfZero};

use crate::answer::answer_by;
use clusters::needs::needs_met;
use session_calls::activate::activate_on_sound;
use soundness::sound::sound;
use staging::staged;
use state::answer::{Answered, answer_with};
use state::phase::Phase;
use state::session::Session;
use state::state::State;

// Source document 002's numbers.
const NO_PROCESSED_PACKAGES: u8 = 1;

const ERROR_DURING_ACTIVATION: u8 = 2;

const MISSING_DEPENDENCIES: u8 = 4;

// Says whether the manager's state is Ready and some need is not met in the staged table. Precondition: the session is sound and its list
// has at most 16 entries; a sound state meets it.
fn ready_with_unmet_needs(phase: Phase, session: Session) -> bool
    requires { (session.count ≤ entries_most) × (session_sound (view_session session) ≡ true) }
    ensures { result ≡ is_ready (view_phase phase) && not (needs_met (staged (view_session session))) }
{
    matches!(phase, Phase::Ready) && !needs_met(staged(session))
}

// Makes the call on a sound state. Precondition: the state is sound for the store; `activate_after_check` tests it.
fn old_activate_on_sound(s: State, store: &[u8]) -> Answered<u8>
    requires { sound_for (view_state s) (length store.now) ≡ true }
    ensures { old_outcome result store.now ≡ answered_on_sound s store.now Activate }
{
    if matches!(s.phase, Phase::Idle) {
        return answer_with(NO_PROCESSED_PACKAGES, s);
    }
    if ready_with_unmet_needs(s.phase, s.session) {
        return answer_with(MISSING_DEPENDENCIES, s);
    }
    answer_by(activate_on_sound(s, store), ERROR_DURING_ACTIVATION)
}

// Makes the call after the check of soundness. Precondition: `is_sound` is what the check says of the state and the store; `activate` makes
// the check, and who calls `old_call_after_check` has made it.
pub fn activate_after_check(s: State, is_sound: bool, store: &[u8]) -> Answered<u8>
    requires { is_sound ≡ sound_for (view_state s) (length store.now) }
    ensures { old_outcome result store.now ≡ exact_old_step s store.now Activate }
{
    if !is_sound {
        return answer_with(ERROR_DURING_ACTIVATION, s);
    }
    old_activate_on_sound(s, store)
}

// Activate: does what the twelve's does, and only with all needs met in the staged table.
pub fn activate(s: State, store: &[u8]) -> Answered<u8>
    ensures meaning { view_old_answered result store.now ≡ old_step (view_state s) store.now Activate }
    ensures exact { old_outcome result store.now ≡ exact_old_step s store.now Activate }
    ensures sound { SoundIfZero (old_outcome result store.now) }
{
    activate_after_check(s, sound(s, store.len()), store)
}
