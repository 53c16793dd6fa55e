// The old status.
ghost use Rattle.std.specs.Prelude.{◌≡◌};
ghost use Rattle.state.specs.View.{view_state};
ghost use Rattle.four_state.specs.OldCalls.{status_of};

use soundness::sound::sound;
use state::phase::phase_number;
use state::state::State;

// What each of the manager's states shows as, by its number.
const STATUS: [u8; 9] = [
    0, // Idle: k_idle
    1, // Ready: k_ready
    2, // Processing: k_busy
    3, // Activating: k_activating
    3, // Verifying
    3, // Activated
    2, // RollingBack
    3, // RolledBack
    2, // CleaningUp
];

// What a state that is not sound shows as.
const NOT_SOUND: u8 = 255;

// Gives the status of any state and bytes.
#[tactic(auto, unfolding(crate::specs::OldCalls::status_of))]
pub fn status(s: State, store: &[u8]) -> u8
    ensures { result ≡ status_of (view_state s) store.now }
{
    if !sound(s, store.len()) {
        return NOT_SOUND;
    }
    let status = STATUS;
    status[phase_number(s.phase)]
}
