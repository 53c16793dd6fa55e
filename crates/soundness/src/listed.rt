// The session's list and the packages that are Processed.
ghost use Rattle.std.specs.Prelude.{◌≡◌, ◌≤◌};
ghost use Rattle.model.specs.Sound.{packages_most};
ghost use Rattle.state.specs.View.{view_packages, view_phase, entries_most};
ghost use Rattle.soundness.specs.Parts.{counted_entries, list_part_sound, ProcessedAsListed};

use crate::counts::count_states;
use crate::phases::phase_fits;
use listed_actions::columns::{entry_columns, is_among};
use state::limits::ENTRIES_MOST;
use state::package::PackageState;
use state::phase::Phase;
use state::session::Entry;
use state::transfers::Transfers;

// Says whether exactly the packages that are Processed have their ids among those listed. Precondition: there are at most 16 packages and
// at most 16 listed ids; `list_sound` requires the one and has checked the other.
fn processed_as_listed(t: Transfers, ids: [u32; ENTRIES_MOST], listed: usize) -> bool
    requires { (t.count ≤ packages_most) × (listed ≤ entries_most) }
    ensures { ProcessedAsListed t ids listed result }
{
    for p in &t.packages[..t.count] {
        if (p.state == PackageState::Processed) != is_among(&ids, listed, p.id) {
            return false;
        }
    }
    true
}

// Says whether the listed entries are those of exactly the Processed packages, and the manager's state goes with their number and with the
// packages that are Processing. Where there is no entry, and so no Processed package, nothing more is compared. Precondition: there are at
// most 16 packages; `transfers_sound` checks it before.
pub fn list_sound(phase: Phase, t: Transfers, entries: [Entry; ENTRIES_MOST], count: usize) -> bool
    requires { t.count ≤ packages_most }
    ensures { result ≡ list_part_sound (view_phase phase) (view_packages t) (counted_entries entries count) }
{
    let counts = count_states(t);
    if count != counts.processed {
        return false;
    }
    if !phase_fits(phase, counts.processing, count) {
        return false;
    }
    if count < 1 {
        return true;
    }
    processed_as_listed(t, entry_columns(entries, count).ids, count)
}
