// The table when the session began, and the session's list in processing order.
ghost use Rattle.std.specs.Prelude.{◌≡◌, ◌+◌, ◌<◌};
ghost use Rattle.state.specs.View.{entries_most};
ghost use Rattle.state.specs.Exact.{new_session, with_entry};

use crate::limits::ENTRIES_MOST;
use actions::action::{Action, cleared_action};
use clusters::table::Table;

// An action of the session's list, with the transfer id of its package.
#[derive(Clone, Copy)]
pub struct Entry {
    pub id: u32,
    pub action: Action,
}

// The first count of the entries count; the places behind them are unused.
#[derive(Clone, Copy)]
pub struct Session {
    pub beginning: Table,
    pub entries: [Entry; ENTRIES_MOST],
    pub count: usize,
}

// Begins a session with a table and an empty list. Every unused place is cleared.
pub fn new_session(beginning: Table) -> Session
    ensures { result ≡ new_session beginning }
{
    let cleared = Entry {
        id: 0,
        action: cleared_action(),
    };
    Session {
        beginning,
        entries: [cleared; ENTRIES_MOST],
        count: 0,
    }
}

// Adds an entry behind the others. Precondition: the list has room; Work meets it, because the list has the Processed packages, and one of
// the at most 16 is still processing.
pub fn with_entry(mut session: Session, entry: Entry) -> Session
    requires { session.count < entries_most }
    ensures { result ≡ with_entry session entry }
{
    session.entries[session.count] = entry;
    session.count += 1;
    session
}
