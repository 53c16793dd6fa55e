// Work: payload bytes are taken into the sum, and processing ends by a cancel or with no payload left.
#![tactic(auto)]

mod ending;
mod payload_bytes;

ghost use Rattle.std.specs.Prelude.{◌≡◌, true, length};
ghost use Rattle.model.specs.Calls.{work};
ghost use Rattle.model.specs.Sound.{sound_for};
ghost use Rattle.model.specs.Step.{step};
ghost use Rattle.state.specs.View.{view_state};
ghost use Rattle.state.specs.Outcome.{outcome, view_answered, SoundIfAccepted};
ghost use Rattle.work_on_payload.specs.Work.{worked_at, work_called, work_called_on_sound, WorkFits};

use crate::ending::{compare_sum, end_processing};
use crate::payload_bytes::take_payload;
use areas::lookup::processing_place;
use areas::sizes::area_start;
use refusal::Refusal;
use soundness::sound::sound;
use state::answer::{Answer, Answered, answer_with, refuse};
use state::package::PackageState;
use state::permissions::{WORK, allowed};
use state::state::{State, with_work};

// Works on the package at i, the one that is processing. A noted cancel comes before any payload. Precondition: its area and payload lie in
// the store and the session's list has room; a sound state in Processing meets it.
#[tactic(auto, unfolding(crate::specs::Work::worked_at, crate::specs::Work::worked_to))]
fn accept_work(s: State, store: &[u8], i: usize, n: u32) -> Answered<Answer>
    requires { WorkFits s i (length store.now) }
    ensures { result ≡ worked_at s store.now i n }
{
    let t = s.transfers;
    let session = s.session;
    if s.work.cancel_noted {
        return end_processing(t, i, PackageState::Transferred, session, Answer::Cancelled);
    }
    let after = take_payload(s.work, store, area_start(t, i), n);
    if after.done < after.count {
        return answer_with(Answer::Working, with_work(s, after));
    }
    compare_sum(t, i, session, after)
}

// Makes the call after refusal 1. Precondition: the state is sound for the store; `work` and `manager::call` check it.
pub fn work_on_sound(s: State, store: &[u8], n: u32) -> Answered<Answer>
    requires { sound_for (view_state s) (length store.now) ≡ true }
    ensures { outcome result store.now ≡ work_called_on_sound s store.now n }
{
    if !allowed(s.phase, WORK) {
        return refuse(s, Refusal::OperationNotPermitted);
    }
    let i = processing_place(s.transfers);
    accept_work(s, store, i, n)
}

// Work(n): takes the next n payload bytes, or what is left, into the sum.
pub fn work(s: State, store: &[u8], n: u32) -> Answered<Answer>
    ensures meaning { view_answered result store.now ≡ step (view_state s) store.now (work n) }
    ensures exact { outcome result store.now ≡ work_called s store.now n }
    ensures sound { SoundIfAccepted (outcome result store.now) }
{
    if !sound(s, store.len()) {
        return refuse(s, Refusal::BadState);
    }
    work_on_sound(s, store, n)
}
