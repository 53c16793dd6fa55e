// One entry for the twelve changing calls.
#![tactic(auto)]

ghost use Rattle.std.specs.Prelude.{◌≡◌, true, length};
ghost use Rattle.model.specs.Sound.{sound_for};
ghost use Rattle.request.specs.Call.{call_of};
ghost use Rattle.state.specs.View.{view_state};
ghost use Rattle.state.specs.Outcome.{outcome, view_answered, SoundIfAccepted};
ghost use Rattle.manager.specs.Accepts.{exact_step, exact_step_on_sound, request_step};

use cancel_processing::cancel_on_sound;
use delete_transfer::delete_transfer_on_sound;
use process_package::process_on_sound;
use refusal::Refusal;
use report::report_on_sound;
use request::Request;
use session_calls::activate::activate_on_sound;
use session_calls::finish::finish_on_sound;
use session_calls::revert::revert_on_sound;
use session_calls::rollback::rollback_on_sound;
use soundness::sound::sound;
use state::answer::{Answer, Answered, refuse};
use state::state::State;
use transfer_data::transfer_data_on_sound;
use transfer_exit::transfer_exit_on_sound;
use transfer_start::transfer_start_on_sound;
use work_on_payload::work_on_sound;

// Makes a call after refusal 1. Only TransferData has a block. Precondition: the state is sound for the store; `call_after_check` tests it.
fn call_on_sound(s: State, store: &mut [u8], request: Request, block: &[u8]) -> Answered<Answer>
    requires { sound_for (view_state s) (length store.old) ≡ true }
    ensures { outcome result store.new ≡ exact_step_on_sound s store.old (call_of request block.now) }
{
    match request {
        Request::TransferStart(size) => transfer_start_on_sound(s, store, size),
        Request::TransferData(id, counter) => transfer_data_on_sound(s, store, id, counter, block),
        Request::TransferExit(id) => transfer_exit_on_sound(s, store, id),
        Request::DeleteTransfer(id) => delete_transfer_on_sound(s, store, id),
        Request::Process(id) => process_on_sound(s, store, id),
        Request::Work(n) => work_on_sound(s, store, n),
        Request::Cancel(id) => cancel_on_sound(s, store, id),
        Request::Revert => revert_on_sound(s, store),
        Request::Activate => activate_on_sound(s, store),
        Request::Rollback => rollback_on_sound(s, store),
        Request::Finish => finish_on_sound(s, store),
        Request::Report(good) => report_on_sound(s, store, good),
    }
}

// Makes one of the twelve changing calls after the check of soundness. Precondition: `is_sound` is what the check says of the state and the
// store; `call` makes the check for one call, `call_list` for a list of calls.
pub fn call_after_check(
    s: State,
    is_sound: bool,
    store: &mut [u8],
    request: Request,
    block: &[u8],
) -> Answered<Answer>
    requires { is_sound ≡ sound_for (view_state s) (length store.old) }
    ensures meaning { view_answered result store.new ≡ request_step s store.old request block.now }
    ensures exact { outcome result store.new ≡ exact_step s store.old (call_of request block.now) }
    ensures sound { SoundIfAccepted (outcome result store.new) }
{
    if !is_sound {
        return refuse(s, Refusal::BadState);
    }
    call_on_sound(s, store, request, block)
}

// Makes one of the twelve changing calls, from any state and bytes.
pub fn call(s: State, store: &mut [u8], request: Request, block: &[u8]) -> Answered<Answer>
    ensures meaning { view_answered result store.new ≡ request_step s store.old request block.now }
    ensures exact { outcome result store.new ≡ exact_step s store.old (call_of request block.now) }
    ensures sound { SoundIfAccepted (outcome result store.new) }
{
    let is_sound = sound(s, store.len());
    call_after_check(s, is_sound, store, request, block)
}
