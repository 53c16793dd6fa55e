// What a program in C is given: the functions that `c_interface_c` exports, each with the prefix `wozkindu_`. include/wozkindu.h declares
// them.
#![tactic(auto)]

ghost use Rattle.std.specs.Prelude.{◌≡◌};
ghost use Rattle.call_rows.specs.Rows.{decoded};
ghost use Rattle.c_interface.specs.Results.{result_number};
ghost use Rattle.c_interface.specs.LoadAndRun.{nothing_loaded, numbered_outcome, load_and_run_numbered, LoadRepliedBy, DemandMetBy0};

use call_list::ListReply;
use call_list::loaded::load_and_run;
use clusters::table::empty_table;
use refusal::BAD_LOAD;
use state::state::{State, loaded_state};

// The numbers of results. Those of document 01's refusals are below 256; what this interface adds begins there.
const MADE: u32 = 0;

const MALFORMED_LIST: u32 = 256;

const SHORT_ANSWERS: u32 = 257;

// Gives the number that a program in C is answered for what became of a list.
pub fn result_number(reply: ListReply) -> u32
    ensures { result ≡ result_number reply }
{
    match reply {
        ListReply::Made => MADE,
        ListReply::BadLoad => BAD_LOAD,
        ListReply::Malformed => MALFORMED_LIST,
        ListReply::ShortAnswers => SHORT_ANSWERS,
    }
}

// Gives a state that nothing was loaded into: its next id is 0, so it is not sound.
pub fn nothing_loaded() -> State
    ensures { result ≡ nothing_loaded }
{
    loaded_state(empty_table(), 0)
}

// Loads, and then makes every call of the list, as `call_list::loaded::load_and_run` from a state that nothing was loaded into. The state
// then is kept by nobody. Of the numbers other than 0 each says that no call was made and nothing was written.
pub fn wozkindu_load_and_run(
    list: &[u8],
    first: u32,
    store: &mut [u8],
    words: &[u32],
    bytes: &[u8],
    answers: &mut [u32],
) -> u32
    ensures exact { numbered_outcome result store.new answers.new
        ≡ load_and_run_numbered list.now first store.old answers.old
        (decoded words.now bytes.now) }
    ensures load_reply { LoadRepliedBy list.now first store.old result }
    ensures demand3 { DemandMetBy0 list.now first store.old answers.old
        (decoded words.now bytes.now) result store.new answers.new }
{
    let made = load_and_run(nothing_loaded(), list, first, store, words, bytes, answers);
    let reply = made.answer;
    result_number(reply)
}
