// The whole state: what each call that may change it is handed and gives back.
ghost use Rattle.std.specs.Prelude.{◌≡◌};
ghost use Rattle.state.specs.Exact.{loaded_state, in_phase, with_transfers, with_work};

use crate::phase::Phase;
use crate::session::{Session, new_session};
use crate::transfers::{Transfers, no_transfers};
use crate::work::{Work, cleared_work};
use clusters::table::Table;

// The kept values are a field of their own and not part of the phase Processing; outside Processing a sound state has them cleared.
#[derive(Clone, Copy)]
pub struct State {
    pub phase: Phase,
    pub transfers: Transfers,
    pub session: Session,
    pub work: Work,
}

// Gives the state after Load: Idle, with no package, a table and the first id to be given.
pub fn loaded_state(table: Table, first: u32) -> State
    ensures { result ≡ loaded_state table first }
{
    State {
        phase: Phase::Idle,
        transfers: no_transfers(first),
        session: new_session(table),
        work: cleared_work(),
    }
}

// Gives the state in another phase, with all else as it was.
pub fn in_phase(mut s: State, phase: Phase) -> State
    ensures { result ≡ in_phase phase s }
{
    s.phase = phase;
    s
}

// Gives the state with other transfers.
pub fn with_transfers(mut s: State, transfers: Transfers) -> State
    ensures { result ≡ with_transfers transfers s }
{
    s.transfers = transfers;
    s
}

// Gives the state with other kept values.
pub fn with_work(mut s: State, work: Work) -> State
    ensures { result ≡ with_work work s }
{
    s.work = work;
    s
}
