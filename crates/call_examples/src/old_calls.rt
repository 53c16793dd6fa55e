// The old four, each by its own function.
use crate::kinds::OldCall;
use cases::show;
use four_state::activate::activate;
use four_state::cancel::cancel;
use four_state::revert::revert;
use four_state::rollback::rollback;
use state::answer::Answered;
use state::state::State;
use std::io;

// Prints the answer and returns the state.
fn show_old(rt: &HostRuntime, r: Answered<u8>) -> io::Result<State> {
    show::bytes(rt, b" old ")?;
    show::number(rt, u32::from(r.answer))?;
    Ok(r.state)
}

// Makes an old call.
pub fn make_old_call(
    rt: &HostRuntime,
    s: State,
    store: &[u8],
    id: u32,
    call: OldCall,
) -> io::Result<State> {
    match call {
        OldCall::Activate => show_old(rt, activate(s, store)),
        OldCall::Cancel => show_old(rt, cancel(s, store, id)),
        OldCall::Revert => show_old(rt, revert(s, store)),
        OldCall::Rollback => show_old(rt, rollback(s, store)),
    }
}
