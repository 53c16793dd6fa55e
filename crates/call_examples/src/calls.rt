// A case is a call, or each of the twelve on the state changed to one that is not sound or with a mark set, or shows a payload or the
// store.
use crate::answers::show_answer;
use crate::kinds::{Call, Kind, SessionCall, TWELVE, kind_of};
use crate::marks::marked;
use crate::old_calls::make_old_call;
use crate::unsound::made_unsound;
use cancel_processing::cancel;
use cases::case::field;
use cases::show;
use cases::values::number_of;
use delete_transfer::delete_transfer;
use load::load;
use process_package::process;
use report::report;
use session_calls::activate::activate;
use session_calls::finish::finish;
use session_calls::revert::revert;
use session_calls::rollback::rollback;
use state::state::State;
use std::io;
use transfer_data::transfer_data;
use transfer_exit::transfer_exit;
use transfer_start::transfer_start;
use work_on_payload::work;

// Makes a call that is neither Load nor a transfer call.
fn make_session_call(
    rt: &HostRuntime,
    s: State,
    store: &mut [u8],
    id: u32,
    call: SessionCall,
) -> io::Result<State> {
    match call {
        SessionCall::Process => show_answer(rt, process(s, store, id)),
        SessionCall::Work => show_answer(rt, work(s, store, id)),
        SessionCall::Cancel => show_answer(rt, cancel(s, store, id)),
        SessionCall::Revert => show_answer(rt, revert(s, store)),
        SessionCall::Activate => show_answer(rt, activate(s, store)),
        SessionCall::Rollback => show_answer(rt, rollback(s, store)),
        SessionCall::Finish => show_answer(rt, finish(s, store)),
        SessionCall::ReportGood => show_answer(rt, report(s, store, true)),
        SessionCall::ReportBad => show_answer(rt, report(s, store, false)),
    }
}

// Makes a call with the numbers and bytes of a case.
fn make_call(
    rt: &HostRuntime,
    s: State,
    store: &mut [u8],
    case: &[u8],
    call: Call,
) -> io::Result<State> {
    let first = number_of(field(case, 1));
    match call {
        Call::Load => show_answer(rt, load(s, field(case, 2), first, store)),
        Call::Start => show_answer(rt, transfer_start(s, store, first)),
        Call::Data => show_answer(
            rt,
            transfer_data(s, store, first, number_of(field(case, 2)), field(case, 3)),
        ),
        Call::Exit => show_answer(rt, transfer_exit(s, store, first)),
        Call::Delete => show_answer(rt, delete_transfer(s, store, first)),
        Call::Old(old) => make_old_call(rt, s, store, first, old),
        Call::Session(session) => make_session_call(rt, s, store, first, session),
    }
}

// Makes each of the twelve calls on a state, in the order of the sentences.
fn make_each_call(rt: &HostRuntime, s: State, store: &mut [u8], case: &[u8]) -> io::Result<()> {
    for call in TWELVE {
        make_call(rt, s, store, case, call)?;
    }
    Ok(())
}

// Prints the bytes of a payload and the answer of `payload_check`.
fn show_payload(rt: &HostRuntime, s: State, store: &[u8], id: u32) -> io::Result<()> {
    show::byte(rt, b' ')?;
    show::bytes(rt, payload::payload(s, store, id))?;
    show::bytes(rt, b", check ")?;
    show::number(rt, payload::payload_check(s, store, id))
}

fn show_store(rt: &HostRuntime, store: &[u8]) -> io::Result<()> {
    for b in store {
        show::byte(rt, if *b == 0 { b'.' } else { *b })?;
    }
    Ok(())
}

// Plays a case by its sentence, which is printed before what the case gives.
pub fn make_case(rt: &HostRuntime, s: State, store: &mut [u8], case: &[u8]) -> io::Result<State> {
    let sentence = field(case, 0);
    show::with_fields(rt, sentence, case)?;
    match kind_of(sentence) {
        Some(Kind::Call(call)) => return make_call(rt, s, store, case, call),
        Some(Kind::Payload) => show_payload(rt, s, store, number_of(field(case, 1)))?,
        Some(Kind::Store) => show_store(rt, store)?,
        Some(Kind::Unsound) => {
            make_each_call(rt, made_unsound(s, number_of(field(case, 2))), store, case)?;
        }
        Some(Kind::Marked) => {
            make_each_call(rt, marked(s, number_of(field(case, 2))), store, case)?;
        }
        None => show::bytes(rt, b" no such kind of case")?,
    }
    Ok(s)
}
