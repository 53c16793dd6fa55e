// Exercises lists of calls: each case loads a table and runs a list of calls in rows of six words. The file stdin beside src/ has the
// cases, in the form that `cases::case` says, and the file stdout what must be printed, written from document 01 and from the table of what
// the old calls answer.
#![tactic(auto)]

mod answers;
mod lists;
mod words;

use crate::lists::play;
use cases::input::read_full;
use std::io;

// Plays each case, from behind its `#` to the next. The first byte is the first `#`.
fn play_all(rt: &HostRuntime, input: &[u8]) -> io::Result<()> {
    let Some((_, cases)) = input.split_first() else {
        return Ok(());
    };
    for case in cases.split(|b| *b == b'#') {
        play(rt, case)?;
    }
    Ok(())
}

fn main(rt: HostRuntime) -> io::Result<()> {
    let mut input = [0u8; 65536];
    let length = read_full(&rt, &mut input)?;
    play_all(&rt, &input[..length])
}
