// The checks of a package that is to be processed, and the values that the state then keeps of it.
ghost use Rattle.std.specs.Prelude.{◌≡◌, true, ◌≤◌, ◌<◌, length, IfOk};
ghost use Rattle.base.specs.Refusals.{first_refusal};
ghost use Rattle.refusal.specs.Number.{refused_with};
ghost use Rattle.actions.specs.Refusals.{touched, action_refusals};
ghost use Rattle.actions.specs.View.{view_action};
ghost use Rattle.model.specs.State.{actions};
ghost use Rattle.model.specs.Tables.{staged};
ghost use Rattle.manifest.specs.Answer.{package_read};
ghost use Rattle.model.specs.Sound.{session_sound};
ghost use Rattle.model.specs.Step.{process_refusals};
ghost use Rattle.state.specs.View.{view_package_state, entries_most, view_entries, view_session};
ghost use Rattle.listed_actions.specs.Listed.{listed_actions};
ghost use Rattle.areas.specs.Inside.{AreaInside, read_at};
ghost use Rattle.process_package.specs.Process.{work_of_package};

use actions::action::Action;
use actions::refusals::action_refusal;
use areas::reading::read_area;
use areas::sizes::area_start;
use listed_actions::columns::{entry_columns, is_among};
use manifest::package::PackageRead;
use refusal::Refusal;
use staging::staged;
use state::limits::ENTRIES_MOST;
use state::package::{Package, PackageState};
use state::session::{Entry, Session};
use state::transfers::Transfers;
use state::work::Work;

// Says whether the first count of the entries have the cluster with a part number. Precondition: the count is at most 16; a sound state
// meets it.
fn is_touched(entries: [Entry; ENTRIES_MOST], count: usize, part: u32) -> bool
    requires { count ≤ entries_most }
    ensures { result ≡ touched part (listed_actions entries count) }
{
    let columns = entry_columns(entries, count);
    is_among(&columns.parts, count, part)
}

// Checks the refusals 11 to 15 and 21 of an action behind the session's list, in their order. Precondition: the session is sound and its
// list has at most 16 entries; a sound state meets it.
fn session_refusal(session: Session, action: Action) -> Result<(), Refusal>
    requires { (session.count ≤ entries_most) × (session_sound (view_session session) ≡ true) }
    ensures { refused_with result ≡ first_refusal (action_refusals (staged (view_session session)) (actions (view_entries session)) (view_action action)) }
{
    let in_list = is_touched(session.entries, session.count, action.cluster.part);
    action_refusal(staged(session), in_list, action)
}

// Gives the values that are kept of a package that was read. Precondition: the payload's start and count are of 32 bits; a package in a
// store of at most 16,777,216 bytes meets it.
fn work_of_package(read: PackageRead) -> Work
    requires { (read.start < 4294967296) × (read.count < 4294967296) }
    ensures { result ≡ work_of_package read }
{
    Work {
        action: read.action,
        start: read.start as u32,
        count: read.count as u32,
        sum: read.sum,
        running_sums: checksum::start(),
        done: 0,
        cancel_noted: false,
    }
}

// Checks the refusals after refusal 4 (InvalidTransferId) of the package p at i, and returns the values that the state keeps of it. The
// text of its area is read once. Precondition: the area of p at i lies in the store, the session is sound and its list has at most 16
// entries; a package that was found in a sound state meets it.
pub fn check_package(
    t: Transfers,
    i: usize,
    p: Package,
    store: &[u8],
    session: Session,
) -> Result<Work, Refusal>
    requires { AreaInside t i p (length store.now) × ((session.count ≤ entries_most) × (session_sound (view_session session) ≡ true)) }
    ensures refused { refused_with result
        ≡ first_refusal (process_refusals (view_package_state p.state) (read_at t i p store.now) (view_session session)) }
    ensures work { IfOk result (λ w. w ≡ work_of_package (package_read (read_at t i p store.now))) }
{
    if p.state != PackageState::Transferred {
        return Err(Refusal::WrongPackageState);
    }
    let start = area_start(t, i);
    let read = read_area(&store[start..start + p.size as usize])?;
    session_refusal(session, read.action)?;
    Ok(work_of_package(read))
}
