// Process: a package that is Transferred is Processing, and the state keeps what its text says.
#![tactic(auto)]

mod checks;

ghost use Rattle.std.specs.Prelude.{◌≡◌, true, ◌<◌, length};
ghost use Rattle.model.specs.Calls.{process};
ghost use Rattle.model.specs.Sound.{packages_most, sound_for};
ghost use Rattle.model.specs.Step.{step};
ghost use Rattle.state.specs.View.{view_state};
ghost use Rattle.state.specs.Outcome.{outcome, view_answered, SoundIfAccepted};
ghost use Rattle.process_package.specs.Process.{processing_begun_at, process_called, process_called_on_sound};

use crate::checks::check_package;
use areas::lookup::named_package;
use refusal::Refusal;
use soundness::sound::sound;
use state::answer::{Answer, Answered, answer_with, refuse};
use state::package::{Package, PackageState, in_state};
use state::permissions::PROCESS;
use state::phase::Phase;
use state::state::State;
use state::transfers::with_package;
use state::work::Work;

// Makes the package p at i Processing and keeps values of it. Precondition: i is below 16; a place that was found in a sound state meets
// it.
fn begin_processing(s: State, i: usize, p: Package, work: Work) -> Answered<Answer>
    requires { i < packages_most }
    ensures { result ≡ processing_begun_at s i p work }
{
    let t = s.transfers;
    let transfers = with_package(t, i, in_state(p, PackageState::Processing));
    let session = s.session;
    let begun = State {
        phase: Phase::Processing,
        transfers: transfers,
        session: session,
        work: work,
    };
    answer_with(Answer::Done, begun)
}

// Makes the call after refusal 1. Precondition: the state is sound for the store; `process` and `manager::call` check it.
pub fn process_on_sound(s: State, store: &[u8], id: u32) -> Answered<Answer>
    requires { sound_for (view_state s) (length store.now) ≡ true }
    ensures { outcome result store.now ≡ process_called_on_sound s store.now id }
{
    if s.phase == Phase::Processing {
        return refuse(s, Refusal::ServiceBusy);
    }
    let t = s.transfers;
    let i = match named_package(s.phase, t, PROCESS, id) {
        Ok(i) => i,
        Err(refusal) => return refuse(s, refusal),
    };
    let p = t.packages[i];
    match check_package(t, i, p, store, s.session) {
        Ok(work) => begin_processing(s, i, p, work),
        Err(refusal) => refuse(s, refusal),
    }
}

// Process(id): moves Idle or Ready to Processing.
pub fn process(s: State, store: &[u8], id: u32) -> Answered<Answer>
    ensures meaning { view_answered result store.now ≡ step (view_state s) store.now (process id) }
    ensures exact { outcome result store.now ≡ process_called s store.now id }
    ensures sound { SoundIfAccepted (outcome result store.now) }
{
    if !sound(s, store.len()) {
        return refuse(s, Refusal::BadState);
    }
    process_on_sound(s, store, id)
}
