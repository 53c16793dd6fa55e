// How processing ends: the package goes to another state, and the kept values are cleared.
ghost use Rattle.std.specs.Prelude.{◌≡◌, true, ◌<◌};
ghost use Rattle.checksum.specs.Sum.{sums_within};
ghost use Rattle.model.specs.Sound.{packages_most};
ghost use Rattle.state.specs.View.{entries_most};
ghost use Rattle.work_on_payload.specs.Ending.{phase_after, ended, sum_compared};

use state::answer::{Answer, Answered, answer_with};
use state::package::{PackageState, in_state};
use state::phase::Phase;
use state::session::{Entry, Session, with_entry};
use state::state::State;
use state::transfers::{Transfers, with_package};
use state::work::{Work, cleared_work};

// Gives the manager's state after an ending, by the number of entries of the session's list.
#[tactic(auto, unfolding(crate::specs::Ending::phase_after))]
fn phase_after(count: usize) -> Phase
    ensures { result ≡ phase_after count }
{
    if count == 0 {
        Phase::Idle
    } else {
        Phase::Ready
    }
}

// Ends processing: the package at i goes to a state. Precondition: i is below 16; in a sound state the place of the package that is
// processing meets it.
#[tactic(auto, unfolding(crate::specs::Ending::ended))]
pub fn end_processing(
    t: Transfers,
    i: usize,
    package_state: PackageState,
    session: Session,
    answer: Answer,
) -> Answered<Answer>
    requires { i < packages_most }
    ensures { result ≡ ended t i package_state session answer }
{
    let ended = State {
        phase: phase_after(session.count),
        transfers: with_package(t, i, in_state(t.packages[i], package_state)),
        session,
        work: cleared_work(),
    };
    answer_with(answer, ended)
}

// Compares the sum when no payload is left, and lists the action of a package that is then Processed. Precondition: i is below 16, the
// running sums are at most 254 and the list has room; a sound state in Processing meets it, and `take_payload` keeps the sums so.
#[tactic(auto, unfolding(crate::specs::Ending::sum_compared))]
pub fn compare_sum(t: Transfers, i: usize, session: Session, w: Work) -> Answered<Answer>
    requires { (i < packages_most) × (sums_within w.running_sums ≡ true) × (session.count < entries_most) }
    ensures { result ≡ sum_compared t i session w }
{
    if checksum::number(w.running_sums) != w.sum {
        return end_processing(
            t,
            i,
            PackageState::Transferred,
            session,
            Answer::Inconsistent,
        );
    }
    let entry = Entry {
        id: t.packages[i].id,
        action: w.action,
    };
    let listed = with_entry(session, entry);
    end_processing(t, i, PackageState::Processed, listed, Answer::Processed)
}
