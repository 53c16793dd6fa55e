// What the program keeps from line to line, beside the bytes of its store, and what a line gives.
ghost use Rattle.script_calls.specs.Kept.{NothingLoaded};

use clusters::table::empty_table;
use state::answer::Answer;
use state::state::{State, loaded_state};

// The manager's state, and how many of the program's bytes are lent to it as its store.
#[derive(Clone, Copy)]
pub struct Kept {
    pub state: State,
    pub store_length: usize,
}

// The answer of a call; that of an old call; `unknown`; or that the line changes nothing and is answered by what it shows.
#[derive(Clone, Copy)]
pub enum LineAnswer {
    Answer(Answer),
    Old(u8),
    Unknown,
    Shown,
}

// A line's answer, and what is kept then.
#[derive(Clone, Copy)]
pub struct Played {
    pub answer: LineAnswer,
    pub kept: Kept,
}

// Returns what is kept before the first Load: a store of no bytes, and a state that is not sound, since its next id is 0.
pub fn nothing_loaded() -> Kept
    ensures { NothingLoaded result }
{
    Kept {
        state: loaded_state(empty_table(), 0),
        store_length: 0,
    }
}
