// Report: the machine says whether an activation, a verification, a rollback or a clean-up was good.
#![tactic(auto)]

ghost use Rattle.std.specs.Prelude.{◌≡◌, true, ◌≤◌, length};
ghost use Rattle.clusters.specs.Table.{needs_met};
ghost use Rattle.clusters.specs.View.{view_table};
ghost use Rattle.model.specs.Calls.{report};
ghost use Rattle.model.specs.Sound.{session_sound, sound_for};
ghost use Rattle.model.specs.Step.{step};
ghost use Rattle.state.specs.View.{entries_most, view_session, view_state};
ghost use Rattle.state.specs.Outcome.{outcome, view_answered, SoundIfAccepted};
ghost use Rattle.staging.specs.Staged.{staged_table};
ghost use Rattle.report.specs.Reported.{CleanUpFits, activating_reported, verifying_reported, rollback_phase, rolling_back_reported};
ghost use Rattle.report.specs.Reported.{next_session, cleaned_up, failed_answer, failed_phase, cleaning_up_reported, phase_reported};
ghost use Rattle.report.specs.Reported.{report_called, report_called_on_sound};

use areas::deletion::{Deletion, delete_areas, remaining};
use clusters::needs::needs_met;
use clusters::table::Table;
use refusal::Refusal;
use soundness::sound::sound;
use staging::{running, staged};
use state::answer::{Answer, Answered, answer_with, refuse};
use state::permissions::{REPORT, allowed};
use state::phase::{CleanUpOrigin, Phase, RollbackOrigin};
use state::session::Session;
use state::state::{State, in_phase};

// Answers a report in Activating: an unmet need of the staged table comes before a bad report, because a missing package is looked for
// first.
fn answer_activating(s: State, good: bool, met: bool) -> Answered<Answer>
    ensures { result ≡ activating_reported s good met }
{
    if !met {
        return answer_with(Answer::MissingDependencies, in_phase(s, Phase::Ready));
    }
    if !good {
        return answer_with(Answer::PreActivationFailed, in_phase(s, Phase::Ready));
    }
    answer_with(Answer::Done, in_phase(s, Phase::Verifying))
}

// Takes a report in Activating. Precondition: the session is sound and its list has at most 16 entries; a sound state meets it.
fn report_activating(s: State, good: bool) -> Answered<Answer>
    requires { (s.session.count ≤ entries_most) × (session_sound (view_session s.session) ≡ true) }
    ensures { result ≡ activating_reported s good (needs_met (view_table (staged_table s.session))) }
{
    let met = needs_met(staged(s.session));
    answer_activating(s, good, met)
}

// Takes a report in Verifying.
fn report_verifying(s: State, good: bool) -> Answered<Answer>
    ensures { result ≡ verifying_reported s good }
{
    if good {
        return answer_with(Answer::Done, in_phase(s, Phase::Activated));
    }
    answer_with(Answer::VerificationFailed, in_phase(s, Phase::Verifying))
}

// Gives the state that RollingBack came from.
fn rollback_phase(origin: RollbackOrigin) -> Phase
    ensures { result ≡ rollback_phase origin }
{
    match origin {
        RollbackOrigin::Verifying => Phase::Verifying,
        RollbackOrigin::Activated => Phase::Activated,
    }
}

// Takes a report in RollingBack, by where it came from.
fn report_rolling_back(s: State, origin: RollbackOrigin, good: bool) -> Answered<Answer>
    ensures { result ≡ rolling_back_reported s origin good }
{
    if good {
        return answer_with(Answer::Done, in_phase(s, Phase::RolledBack));
    }
    answer_with(
        Answer::NotAbleToRollback,
        in_phase(s, rollback_phase(origin)),
    )
}

// Gives the session after a clean-up: a table begins it, and its list is empty. The places of the list keep what they had, which plays no
// part; to clear them would cost every call, because the code of all calls is compiled together.
fn next_session(session: Session, beginning: Table) -> Session
    ensures { result ≡ next_session session beginning }
{
    Session {
        beginning,
        count: 0,
        ..session
    }
}

// Ends a clean-up that was good: goes to Idle without the Processed packages, and the running table begins the next session. Precondition:
// there are at most 16 packages, whose areas fit the store, and at most 16 entries; a sound state meets it.
fn clean_up(s: State, store: &mut [u8], origin: CleanUpOrigin) -> Answered<Answer>
    requires { CleanUpFits s (length store.old) }
    ensures { outcome result store.new ≡ cleaned_up s store.old origin }
{
    let session = s.session;
    let next = next_session(session, running(Phase::CleaningUp(origin), session));
    let t = s.transfers;
    delete_areas(t, Deletion::AllProcessed, store);
    let cleaned = State {
        phase: Phase::Idle,
        transfers: remaining(t, Deletion::AllProcessed),
        session: next,
        work: s.work,
    };
    answer_with(Answer::Done, cleaned)
}

// Gives the answer of a clean-up that was bad.
fn failed_answer(origin: CleanUpOrigin) -> Answer
    ensures { result ≡ failed_answer origin }
{
    match origin {
        CleanUpOrigin::Ready => Answer::NotAbleToRevert,
        CleanUpOrigin::Activated | CleanUpOrigin::RolledBack => Answer::CleaningFailed,
    }
}

// Gives the manager's state after a clean-up that was bad.
fn failed_phase(origin: CleanUpOrigin) -> Phase
    ensures { result ≡ failed_phase origin }
{
    match origin {
        CleanUpOrigin::Ready => Phase::Ready,
        CleanUpOrigin::Activated | CleanUpOrigin::RolledBack => Phase::CleaningUp(origin),
    }
}

// Takes a report in CleaningUp. Precondition: that of `clean_up`; a sound state meets it.
fn report_cleaning_up(
    s: State,
    store: &mut [u8],
    origin: CleanUpOrigin,
    good: bool,
) -> Answered<Answer>
    requires { CleanUpFits s (length store.old) }
    ensures { outcome result store.new ≡ cleaning_up_reported s store.old origin good }
{
    if good {
        return clean_up(s, store, origin);
    }
    answer_with(failed_answer(origin), in_phase(s, failed_phase(origin)))
}

// Takes a report in a manager's state, and refuses it in the five that do not allow it. Precondition: the state is sound for the store;
// `report_on_sound` requires it too.
#[tactic(auto, unfolding(crate::specs::Reported::phase_reported))]
fn report_in(s: State, store: &mut [u8], phase: Phase, good: bool) -> Answered<Answer>
    requires { sound_for (view_state s) (length store.old) ≡ true }
    ensures { outcome result store.new ≡ phase_reported s store.old phase good }
{
    match phase {
        Phase::Activating => report_activating(s, good),
        Phase::Verifying => report_verifying(s, good),
        Phase::RollingBack(origin) => report_rolling_back(s, origin, good),
        Phase::CleaningUp(origin) => report_cleaning_up(s, store, origin, good),
        Phase::Idle | Phase::Ready | Phase::Processing | Phase::Activated | Phase::RolledBack =>
            refuse(s, Refusal::OperationNotPermitted),
    }
}

// Makes the call after refusal 1. Precondition: the state is sound for the store; `report` and `manager::call` check it.
pub fn report_on_sound(s: State, store: &mut [u8], good: bool) -> Answered<Answer>
    requires { sound_for (view_state s) (length store.old) ≡ true }
    ensures { outcome result store.new ≡ report_called_on_sound s store.old good }
{
    if !allowed(s.phase, REPORT) {
        return refuse(s, Refusal::OperationNotPermitted);
    }
    report_in(s, store, s.phase, good)
}

// Report(good or bad): takes what the machine reports.
pub fn report(s: State, store: &mut [u8], good: bool) -> Answered<Answer>
    ensures meaning { view_answered result store.new ≡ step (view_state s) store.old (report good) }
    ensures exact { outcome result store.new ≡ report_called s store.old good }
    ensures sound { SoundIfAccepted (outcome result store.new) }
{
    if !sound(s, store.len()) {
        return refuse(s, Refusal::BadState);
    }
    report_on_sound(s, store, good)
}
