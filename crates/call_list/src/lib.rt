// Lists of calls, the twelve and the old four, each handed the state and store that the one before left.
#![tactic(auto)]

pub mod loaded;

ghost use Rattle.std.specs.Prelude.{◌≡◌, true, [], ◌∷◌, ◌+◌, ◌/◌, ◌≤◌, length};
ghost use Rattle.std.proofs.lemmas.List.Edits.{sets};
ghost use Rattle.model.specs.Sound.{sound_for};
ghost use Rattle.request.specs.Call.{call_of};
ghost use Rattle.state.specs.View.{view_state};
ghost use Rattle.four_state.specs.MixedLists.{of_twelve, of_four};
ghost use Rattle.call_rows.specs.Rows.{decoded, is_given};
ghost use Rattle.call_list.specs.WholeList.{list_outcome, run_outcome, view_list_outcome, model_run_outcome, GoesOnIfMade};
ghost use Rattle.call_list.specs.WholeList.{CallMade, RowMade, RowsMade};

use call_rows::answer_words::{AnswerWords, answer_words, old_answer_words};
use call_rows::row::{MixedRequest, Row, row_block, row_request};
use call_rows::row_list::rows_well_formed;
use four_state::call::{OldCall, old_call_after_check};
use manager::call_after_check;
use refusal::BAD_STATE;
use request::Request;
use soundness::sound::sound;
use state::answer::{Answer, Answered, answer_with};
use state::state::State;

// What became of a list of calls: every call was made, or none was, because the list is malformed, the slice for its answers is too short,
// or Load, where it comes before the list, was refused.
#[derive(Clone, Copy)]
pub enum ListReply {
    Made,
    BadLoad,
    Malformed,
    ShortAnswers,
}

// Makes a call of the twelve. Precondition, here and below: `is_sound` says whether the state is sound for the store; `make_all` checks it
// before the first call, and every call leaves it so.
fn make_twelve(
    s: State,
    is_sound: bool,
    store: &mut [u8],
    request: Request,
    block: &[u8],
) -> Answered<AnswerWords>
    requires { is_sound ≡ sound_for (view_state s) (length store.old) }
    ensures { CallMade s store.old (of_twelve (call_of request block.now)) result store.new }
{
    let made = call_after_check(s, is_sound, store, request, block);
    answer_with(answer_words(made.answer), made.state)
}

// Makes a call of the old four, which writes no store.
fn make_old(s: State, is_sound: bool, store: &[u8], old: OldCall) -> Answered<AnswerWords>
    requires { is_sound ≡ sound_for (view_state s) (length store.now) }
    ensures { CallMade s store.now (of_four old) result store.now }
{
    let made = old_call_after_check(s, is_sound, store, old);
    answer_with(old_answer_words(made.answer), made.state)
}

// Makes the call of a row. Of a malformed row nothing is said: `run` and `load_and_run` check all rows before the first call.
fn make_call(
    s: State,
    is_sound: bool,
    store: &mut [u8],
    row: Row,
    bytes: &[u8],
) -> Answered<AnswerWords>
    requires { is_sound ≡ sound_for (view_state s) (length store.old) }
    ensures { RowMade s store.old row bytes.now result store.new }
{
    match row_request(row, bytes.len()) {
        Some(MixedRequest::Twelve(twelve)) => make_twelve(
            s,
            is_sound,
            store,
            twelve,
            row_block(row, bytes),
        ),
        Some(MixedRequest::Old(old)) => make_old(s, is_sound, store, old),
        None => answer_with(answer_words(Answer::Refused(BAD_STATE)), s),
    }
}

// Puts the two words of an answer into the slice at a place. Precondition: the slice has room for them; who makes a list checks it before
// the first call.
pub fn put_answer(answers: &mut [u32], at: usize, words: AnswerWords)
    requires { at + 2 ≤ length answers.old }
    ensures { answers.new ≡ sets answers.old at (words.kind ∷ words.value ∷ []) }
{
    answers[at] = words.kind;
    answers[at + 1] = words.value;
}

// Makes every call of the rows, each with the state and store that the one before left. Precondition: the rows are well-formed and the
// slice has two words for each call; `run` and `load_and_run` check both.
fn make_all(s: State, store: &mut [u8], words: &[u32], bytes: &[u8], answers: &mut [u32]) -> State
    requires bytes_value { is_given (decoded words.now bytes.now) ≡ true }
    requires words_in_bounds { length words.now / 3 ≤ length answers.old }
    ensures { RowsMade s store.old answers.old (decoded words.now bytes.now)
        result store.new answers.new }
{
    let is_sound = sound(s, store.len());
    let (rows, _) = words.as_chunks::<6>();
    let mut state = s;
    for (i, row) in rows.iter().enumerate() {
        let made = make_call(state, is_sound, store, Row::from(*row), bytes);
        put_answer(answers, 2 * i, made.answer);
        state = made.state;
    }
    state
}

// Makes a list of calls in rows of six words, with their blocks in a byte string, from a state and a store. The answers are two words for
// each call. A malformed list, or one with more calls than there is room for answers, is refused whole before anything is changed. A list
// that was made may go on by another: `goes_on`.
pub fn run(
    s: State,
    store: &mut [u8],
    words: &[u32],
    bytes: &[u8],
    answers: &mut [u32],
) -> Answered<ListReply>
    ensures meaning { view_list_outcome (list_outcome result store.new answers.new)
        ≡ model_run_outcome (view_state s) store.old answers.old (decoded words.now bytes.now) }
    ensures exact { list_outcome result store.new answers.new
        ≡ run_outcome s store.old answers.old (decoded words.now bytes.now) }
    ensures goes_on { GoesOnIfMade s store.old (decoded words.now bytes.now)
        result store.new }
{
    if !rows_well_formed(words, bytes) {
        return answer_with(ListReply::Malformed, s);
    }
    if words.len() / 3 > answers.len() {
        return answer_with(ListReply::ShortAnswers, s);
    }
    let state = make_all(s, store, words, bytes, answers);
    answer_with(ListReply::Made, state)
}
