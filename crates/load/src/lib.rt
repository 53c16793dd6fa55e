// Load: "Load takes such a list (any other text is ill-formed), a first transfer id 1 to 4,294,967,295, a lent store of at most
// 16,777,216 bytes, and a state that it gives back when refused. It fills the store with 0 and gives the state Idle."
#![tactic(auto)]

ghost use Rattle.std.specs.Prelude.{◌≡◌};
ghost use Rattle.state.specs.Outcome.{outcome, view_answered, SoundIfAccepted};
ghost use Rattle.load.specs.Exact.{load, model_load};

use cluster_list::read::read_list;
use refusal::BAD_LOAD;
use state::answer::{Answer, Answered, answer_with, refused};
use state::limits::STORE_MOST;
use state::state::{State, loaded_state};

// Checks first what is cheap to check: every refusal has the same number.
pub fn load(s: State, list: &[u8], first: u32, store: &mut [u8]) -> Answered<Answer>
    ensures meaning { view_answered result store.new ≡ model_load s list.now first store.old }
    ensures exact { outcome result store.new ≡ load s list.now first store.old }
    ensures sound { SoundIfAccepted (outcome result store.new) }
{
    if store.len() > STORE_MOST {
        return refused(s, BAD_LOAD);
    }
    if first < 1 {
        return refused(s, BAD_LOAD);
    }
    let Some(table) = read_list(list) else {
        return refused(s, BAD_LOAD);
    };
    let loaded = loaded_state(table, first);
    store::clear(store);
    answer_with(Answer::Done, loaded)
}
