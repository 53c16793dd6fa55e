// A list of calls, each made with its own check of soundness: what a caller pays who makes them one by one.
ghost use Rattle.std.specs.Prelude.{◌≡◌, true, [], ◌/◌, ◌≤◌, length};
ghost use Rattle.call_rows.specs.Rows.{decoded, is_given};
ghost use Rattle.c_interface.specs.LoadAndRun.{numbered_outcome, load_and_run_numbered};
ghost use Rattle.measured.specs.Twelve.{OfTheTwelve, TwelveMade, TwelvesMade};

use c_interface::{nothing_loaded, result_number};
use call_list::{ListReply, put_answer};
use call_rows::answer_words::answer_words;
use call_rows::row::{MixedRequest, Row, row_block, row_request};
use call_rows::row_list::rows_well_formed;
use load::load;
use manager::call;
use refusal::Refusal;
use state::answer::{Answer, Answered, answer_with, refuse};
use state::state::State;

// Makes the call of a row. Of a malformed row nothing is said, because `measured_calls` checks all rows before the first call; and nothing
// of an old call, so that the State is in one kind of answer throughout.
fn make_row(s: State, store: &mut [u8], row: Row, bytes: &[u8]) -> Answered<Answer>
    ensures { TwelveMade s store.old row bytes.now result store.new }
{
    match row_request(row, bytes.len()) {
        Some(MixedRequest::Twelve(twelve)) => call(s, store, twelve, row_block(row, bytes)),
        Some(MixedRequest::Old(_)) => refuse(s, Refusal::BadState),
        None => refuse(s, Refusal::BadState),
    }
}

// Makes every call of the rows, each with the state and store that the one before left. Precondition: the rows are well-formed and the
// slice has two words for each call; `measured_calls` checks both.
fn make_each(s: State, store: &mut [u8], words: &[u32], bytes: &[u8], answers: &mut [u32]) -> State
    requires bytes_value { is_given (decoded words.now bytes.now) ≡ true }
    requires words_in_bounds { length words.now / 3 ≤ length answers.old }
    ensures { TwelvesMade s store.old answers.old (decoded words.now bytes.now)
        result store.new answers.new }
{
    let (rows, _) = words.as_chunks::<6>();
    let mut made = answer_with(Answer::Done, s);
    for (i, row) in rows.iter().enumerate() {
        made = make_row(made.state, store, Row::from(*row), bytes);
        put_answer(answers, 2 * i, answer_words(made.answer));
    }
    made.state
}

// Loads, and then makes every call of the list by `manager::call` with its check of soundness. For a list of the twelve calls it gives what
// `wozkindu_load_and_run` gives; of one with an old call nothing is said.
#[unsafe(no_mangle)]
pub extern "C" fn measured_calls(
    list: &[u8],
    first: u32,
    store: &mut [u8],
    words: &[u32],
    bytes: &[u8],
    answers: &mut [u32],
) -> u32
    ensures { OfTheTwelve (decoded words.now bytes.now)
        → numbered_outcome result store.new answers.new
        ≡ load_and_run_numbered list.now first store.old answers.old
        (decoded words.now bytes.now) }
{
    if !rows_well_formed(words, bytes) {
        return result_number(ListReply::Malformed);
    }
    if words.len() / 3 > answers.len() {
        return result_number(ListReply::ShortAnswers);
    }
    let loaded = load(nothing_loaded(), list, first, store);
    let Answer::Done = loaded.answer else {
        return result_number(ListReply::BadLoad);
    };
    make_each(loaded.state, store, words, bytes, answers);
    result_number(ListReply::Made)
}

// Loads as `measured_calls` does, and makes no call. So Load is called at two places and stays a function of its own: compiled into the
// loop over the calls, the places that it clears would have the State copied in small parts at every call.
#[unsafe(no_mangle)]
pub extern "C" fn measured_load(list: &[u8], first: u32, store: &mut [u8]) -> u32
    ensures { numbered_outcome result store.new []
        ≡ load_and_run_numbered list.now first store.old [] (decoded [] []) }
{
    let loaded = load(nothing_loaded(), list, first, store);
    let Answer::Done = loaded.answer else {
        return result_number(ListReply::BadLoad);
    };
    result_number(ListReply::Made)
}
