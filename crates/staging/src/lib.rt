// The staged and the running table of a session.
#![tactic(auto)]

ghost use Rattle.std.specs.Prelude.{◌≡◌, ◌≤◌};
ghost use Rattle.state.specs.View.{entries_most};
ghost use Rattle.staging.specs.Staged.{staged_table, runs_staged, running_table};

use actions::action::apply;
use clusters::table::Table;
use state::phase::{CleanUpOrigin, Phase};
use state::session::Session;

// Gives the session's beginning table with the listed actions applied, in order. Precondition: the list has at most 16 entries; a sound
// state meets it.
pub fn staged(session: Session) -> Table
    requires { session.count ≤ entries_most }
    ensures { result ≡ staged_table session }
{
    let mut table = session.beginning;
    for i in 0..session.count {
        table = apply(table, session.entries[i].action);
    }
    table
}

// Says whether the staged table runs in a manager's state.
fn runs_staged(phase: Phase) -> bool
    ensures { result ≡ runs_staged phase }
{
    match phase {
        Phase::Idle | Phase::Ready | Phase::Processing | Phase::Activating => false,
        Phase::Verifying | Phase::Activated | Phase::RollingBack(_) => true,
        Phase::RolledBack => false,
        Phase::CleaningUp(origin) => origin == CleanUpOrigin::Activated,
    }
}

// Gives the running table. Precondition: the list has at most 16 entries; a sound state meets it.
pub fn running(phase: Phase, session: Session) -> Table
    requires { session.count ≤ entries_most }
    ensures { result ≡ running_table phase session }
{
    if runs_staged(phase) {
        staged(session)
    } else {
        session.beginning
    }
}
