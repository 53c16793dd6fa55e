// The kept values, with the session that they stand behind.
ghost use Rattle.std.specs.Prelude.{◌≡◌, true, ◌≤◌};
ghost use Rattle.model.specs.Areas.{package_of, processing_id};
ghost use Rattle.model.specs.Sound.{packages_most, packages_rise};
ghost use Rattle.state.specs.View.{view_packages, view_phase, view_work, entries_most};
ghost use Rattle.listed_actions.specs.Listed.{listed_actions};
ghost use Rattle.soundness.specs.Parts.{work_numbers_sound, kept_values_sound, listed_with_kept, actions_with_kept};
ghost use Rattle.soundness.specs.Parts.{counted_session, session_part_sound, KeptCheckable};

use crate::counts::one_if;
use crate::session::actions_sound;
use actions::action::Action;
use areas::lookup::processing_place;
use checksum::SUM_MOST;
use clusters::table::Table;
use clusters::within::table_within;
use state::limits::ENTRIES_MOST;
use state::phase::Phase;
use state::session::Entry;
use state::transfers::Transfers;
use state::work::{Work, is_cleared_work};

// The largest running sum: each is a remainder by 255.
const RUNNING_SUM_MOST: u32 = 254;

// Gives the size of the package that is processing, and 0 where none is. Precondition: there are at most 16 packages, each sound by itself,
// and their ids rise; `transfers_sound` checks it before.
fn processing_size(t: Transfers) -> u32
    requires { (t.count ≤ packages_most) × (packages_rise 0 t.next (view_packages t) ≡ true) }
    ensures { result ≡ (package_of (processing_id (view_packages t)) (view_packages t)).size }
{
    let i = processing_place(t);
    if i < t.count {
        let p = t.packages[i];
        return p.size;
    }
    0
}

// Says whether the kept numbers are those of a package of a size. A sum of two numbers of 32 bits does not overflow 64 bits.
fn numbers_sound(w: Work, size: u32) -> bool
    ensures { result ≡ work_numbers_sound w size }
{
    let sums = w.running_sums;
    (w.start as u64 + w.count as u64 == size as u64)
        & ((w.done <= w.count)
            & ((w.sum <= SUM_MOST)
                & ((sums.c0 <= RUNNING_SUM_MOST) & (sums.c1 <= RUNNING_SUM_MOST))))
}

// Says whether the kept values but for their action are sound: in Processing their numbers are those of the package, outside it all values
// are cleared. Precondition: there are at most 16 packages, each sound by itself, and their ids rise; `transfers_sound` checks it before.
fn values_sound(processing: bool, t: Transfers, w: Work) -> bool
    requires { (t.count ≤ packages_most) × (packages_rise 0 t.next (view_packages t) ≡ true) }
    ensures { result ≡ kept_values_sound processing (view_packages t) w }
{
    if !processing {
        return is_cleared_work(w);
    }
    numbers_sound(w, processing_size(t))
}

// Puts the kept action of Processing behind the first count of the entries. Precondition: there is room for the entries and in Processing
// for one more; `session_and_kept_sound` requires it too.
fn with_kept(
    processing: bool,
    entries: [Entry; ENTRIES_MOST],
    count: usize,
    action: Action,
) -> [Entry; ENTRIES_MOST]
    requires { listed_with_kept processing count ≤ entries_most }
    ensures { listed_actions result (listed_with_kept processing count) ≡ actions_with_kept processing entries count action }
{
    if !processing {
        return entries;
    }
    let mut more = entries;
    more[count] = Entry {
        id: 0,
        action: action,
    };
    more
}

// Says whether the session is sound and so are the kept values: in Processing their action passes after the listed ones, outside it they
// are cleared. The actions are looked at in one place, and not where there is none: each further place is a copy of the table and of the
// list. Precondition: there are at most 16 packages, each sound by itself, their ids rise, and there is room for the entries, in
// Processing for one more; `transfers_sound` and `list_sound` check it before.
pub fn session_and_kept_sound(
    phase: Phase,
    t: Transfers,
    beginning: Table,
    entries: [Entry; ENTRIES_MOST],
    count: usize,
    w: Work,
) -> bool
    requires { KeptCheckable phase t count }
    ensures { result ≡ session_part_sound (view_phase phase) (counted_session beginning entries count) (view_packages t) (view_work w) }
{
    let processing = phase == Phase::Processing;
    if !values_sound(processing, t, w) {
        return false;
    }
    if !table_within(beginning) {
        return false;
    }
    let listed = count + one_if(processing);
    if listed < 1 {
        return true;
    }
    let action = w.action;
    let more = with_kept(processing, entries, count, action);
    actions_sound(beginning, more, listed)
}
