// The whole: every part in an order in which each is safe on any state.
ghost use Rattle.std.specs.Prelude.{◌≡◌};
ghost use Rattle.model.specs.Sound.{sound_for};
ghost use Rattle.state.specs.View.{view_state};

use crate::kept::session_and_kept_sound;
use crate::listed::list_sound;
use crate::packages::transfers_sound;
use state::state::State;

// Says whether a state is sound for a store of a length.
pub fn sound(s: State, store_length: usize) -> bool
    ensures { result ≡ sound_for (view_state s) store_length }
{
    let transfers = s.transfers;
    if !transfers_sound(transfers, store_length) {
        return false;
    }
    let phase = s.phase;
    let session = s.session;
    let entries = session.entries;
    let count = session.count;
    if !list_sound(phase, transfers, entries, count) {
        return false;
    }
    let beginning = session.beginning;
    let work = s.work;
    session_and_kept_sound(phase, transfers, beginning, entries, count, work)
}
