// A case: a sentence, the first transfer id, a cluster list, the words of a list of calls, the words of further calls, a row to a line,
// and the byte string with the blocks. Without further calls the number that a program in C is answered and the answers of the list are
// printed. Else each further call is made alone, with the state and store that the list left, and its answer is printed. Then the number
// of the manager's state.
use crate::answers::{show_answers, show_state};
use crate::words::put_words;
use c_interface::wozkindu_load_and_run;
use call_list::loaded::load_and_run;
use call_list::{ListReply, run};
use cases::case::{field, without_end};
use cases::show;
use cases::values::number_of;
use clusters::table::empty_table;
use state::answer::Answered;
use state::state::loaded_state;
use std::io;

// Runs the list from the table of the case.
fn run_list(
    case: &[u8],
    words: &[u32],
    store: &mut [u8],
    answers: &mut [u32],
) -> Answered<ListReply> {
    let first = number_of(field(case, 1));
    let handed_in = loaded_state(empty_table(), 1);
    load_and_run(
        handed_in,
        field(case, 2),
        first,
        store,
        words,
        field(case, 5),
        answers,
    )
}

// Prints the answers of a list that was made, and the state then; or why none was made.
fn show_replied(
    rt: &HostRuntime,
    list: Answered<ListReply>,
    answers: &[u32],
    calls: usize,
) -> io::Result<()> {
    match list.answer {
        ListReply::Made => {
            show_answers(rt, answers, calls)?;
            show_state(rt, list.state)
        }
        ListReply::BadLoad => show::bytes(rt, b" refused 20\n"),
        ListReply::Malformed => show::bytes(rt, b" malformed\n"),
        ListReply::ShortAnswers => show::bytes(rt, b" more calls than answers\n"),
    }
}

fn show_list(
    rt: &HostRuntime,
    case: &[u8],
    words: &[u32],
    store: &mut [u8],
    answers: &mut [u32],
) -> io::Result<()> {
    let list = run_list(case, words, store, answers);
    show_replied(rt, list, answers, words.len() / 6)
}

// Makes the list as a program in C does, and prints the number that it is answered.
fn show_number(
    rt: &HostRuntime,
    case: &[u8],
    words: &[u32],
    store: &mut [u8],
    answers: &mut [u32],
) -> io::Result<()> {
    let first = number_of(field(case, 1));
    let number = wozkindu_load_and_run(
        field(case, 2),
        first,
        store,
        words,
        field(case, 5),
        answers,
    );
    show::byte(rt, b' ')?;
    show::number(rt, number)?;
    show::byte(rt, b',')
}

// Makes the list as a program in C does, with a store and answers of its own.
fn play_number(rt: &HostRuntime, case: &[u8], words: &[u32]) -> io::Result<()> {
    let mut store = [255u8; 2000];
    let mut answers = [0u32; 400];
    show_number(rt, case, words, &mut store, &mut answers)
}

fn play_list(rt: &HostRuntime, case: &[u8], words: &[u32]) -> io::Result<()> {
    play_number(rt, case, words)?;
    let mut store = [255u8; 2000];
    let mut answers = [0u32; 400];
    show_list(rt, case, words, &mut store, &mut answers)
}

// Makes the further call of a row, behind the list, and prints its answer.
fn show_further_call(
    rt: &HostRuntime,
    case: &[u8],
    words: &[u32],
    row: &[u32],
    store: &mut [u8],
    answers: &mut [u32],
) -> io::Result<()> {
    let before = run_list(case, words, store, answers);
    let list = run(before.state, store, row, field(case, 5), answers);
    show_replied(rt, list, answers, row.len() / 6)
}

fn play_further_call(rt: &HostRuntime, case: &[u8], words: &[u32], text: &[u8]) -> io::Result<()> {
    let mut store = [255u8; 2000];
    let mut answers = [0u32; 400];
    let mut row = [0u32; 6];
    put_words(&mut row, text);
    show_further_call(rt, case, words, &row, &mut store, &mut answers)
}

fn play_further(rt: &HostRuntime, case: &[u8], words: &[u32]) -> io::Result<()> {
    show::byte(rt, b'\n')?;
    for text in field(case, 4).split_inclusive(|b| *b == b'\n') {
        play_further_call(rt, case, words, without_end(text, b'\n'))?;
    }
    Ok(())
}

// Plays a case; the words lend the room for the list.
fn play_in(rt: &HostRuntime, case: &[u8], words: &mut [u32]) -> io::Result<()> {
    let count = put_words(words, field(case, 3));
    if field(case, 4).is_empty() {
        play_list(rt, case, &words[..count])
    } else {
        play_further(rt, case, &words[..count])
    }
}

pub fn play(rt: &HostRuntime, case: &[u8]) -> io::Result<()> {
    show::bytes(rt, field(case, 0))?;
    show::byte(rt, b':')?;
    let mut words = [0u32; 1024];
    play_in(rt, case, &mut words)
}
