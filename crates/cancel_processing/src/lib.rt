// Cancel: the cancel is noted, and the next Work ends the processing by it.
#![tactic(auto)]

ghost use Rattle.std.specs.Prelude.{◌≡◌, true, length};
ghost use Rattle.model.specs.Calls.{cancel};
ghost use Rattle.model.specs.Sound.{sound_for};
ghost use Rattle.model.specs.Step.{step};
ghost use Rattle.state.specs.View.{view_state};
ghost use Rattle.state.specs.declared.answer.Answer.TheVariants.{Done};
ghost use Rattle.state.specs.Outcome.{outcome, answered, view_answered, SoundIfAccepted};
ghost use Rattle.state.specs.Exact.{with_work};
ghost use Rattle.cancel_processing.specs.Cancel.{with_cancel_noted, cancel_called, cancel_called_on_sound};

use areas::lookup::processing_place;
use refusal::Refusal;
use soundness::sound::sound;
use state::answer::{Answer, Answered, answer_with, refuse};
use state::permissions::{CANCEL, allowed};
use state::state::{State, with_work};
use state::work::Work;

// Notes the cancel in the state.
fn note_cancel(s: State) -> Answered<Answer>
    ensures { result ≡ answered Done (with_work (with_cancel_noted s.work) s) }
{
    let work = Work {
        cancel_noted: true,
        ..s.work
    };
    answer_with(Answer::Done, with_work(s, work))
}

// Makes the call after refusal 1. Precondition: the state is sound for the store; `cancel`, `manager::call` and the old Cancel check it.
pub fn cancel_on_sound(s: State, store: &[u8], id: u32) -> Answered<Answer>
    requires { sound_for (view_state s) (length store.now) ≡ true }
    ensures { outcome result store.now ≡ cancel_called_on_sound s store.now id }
{
    if !allowed(s.phase, CANCEL) {
        return refuse(s, Refusal::OperationNotPermitted);
    }
    let t = s.transfers;
    let i = processing_place(t);
    let p = t.packages[i];
    if id != p.id {
        return refuse(s, Refusal::InvalidTransferId);
    }
    note_cancel(s)
}

// Cancel(id): notes the cancel until Processing ends.
pub fn cancel(s: State, store: &[u8], id: u32) -> Answered<Answer>
    ensures meaning { view_answered result store.now ≡ step (view_state s) store.now (cancel id) }
    ensures exact { outcome result store.now ≡ cancel_called s store.now id }
    ensures sound { SoundIfAccepted (outcome result store.now) }
{
    if !sound(s, store.len()) {
        return refuse(s, Refusal::BadState);
    }
    cancel_on_sound(s, store, id)
}
