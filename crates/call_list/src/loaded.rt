// Load and then a list of calls. What it promises is demand 3.
ghost use Rattle.std.specs.Prelude.{◌≡◌};
ghost use Rattle.call_rows.specs.Rows.{decoded};
ghost use Rattle.call_list.specs.WholeList.{list_outcome};
ghost use Rattle.call_list.specs.Loaded.{load_and_run_outcome, DemandMetIfMade, LoadReplied};

use crate::{ListReply, make_all};
use call_rows::row_list::rows_well_formed;
use load::load;
use state::answer::{Answer, Answered, answer_with};
use state::state::State;

// Loads, and then makes every call of the list, each with the state and store that the one before left. A malformed list, one with more
// calls than there is room for answers, and then a refused Load are refused before anything is changed.
pub fn load_and_run(
    s: State,
    list: &[u8],
    first: u32,
    store: &mut [u8],
    words: &[u32],
    bytes: &[u8],
    answers: &mut [u32],
) -> Answered<ListReply>
    ensures exact { list_outcome result store.new answers.new
        ≡ load_and_run_outcome s list.now first store.old answers.old
        (decoded words.now bytes.now) }
    ensures load_reply { LoadReplied s list.now first store.old result.answer }
    ensures demand3 { DemandMetIfMade s list.now first store.old answers.old
        (decoded words.now bytes.now) result store.new answers.new }
{
    if !rows_well_formed(words, bytes) {
        return answer_with(ListReply::Malformed, s);
    }
    if words.len() / 3 > answers.len() {
        return answer_with(ListReply::ShortAnswers, s);
    }
    let loaded = load(s, list, first, store);
    let answer = loaded.answer;
    let Answer::Done = answer else {
        return answer_with(ListReply::BadLoad, loaded.state);
    };
    let state = make_all(loaded.state, store, words, bytes, answers);
    answer_with(ListReply::Made, state)
}
