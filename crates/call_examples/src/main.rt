// Exercises the calls: each case is a call on the state and the store that the one before left. The file stdin beside src/ has the cases,
// in the form that `cases::case` says, and the file stdout what must be printed, written from document 01.
#![tactic(auto)]

mod answers;
mod calls;
mod kinds;
mod marks;
mod old_calls;
mod unsound;

use crate::calls::make_case;
use cases::input::read_full;
use cases::show;
use clusters::table::empty_table;
use state::state::loaded_state;
use std::io;

// Plays each case, from behind its `#` to the next. The first byte is the first `#`.
fn make_calls(rt: &HostRuntime, input: &[u8], store: &mut [u8]) -> io::Result<()> {
    let Some((_, cases)) = input.split_first() else {
        return Ok(());
    };
    let mut s = loaded_state(empty_table(), 1);
    for case in cases.split(|b| *b == b'#') {
        s = make_case(rt, s, store, case)?;
        show::byte(rt, b'\n')?;
    }
    Ok(())
}

fn main(rt: HostRuntime) -> io::Result<()> {
    let mut input = [0u8; 65536];
    let length = read_full(&rt, &mut input)?;
    let mut store = [255u8; 200];
    make_calls(&rt, &input[..length], &mut store)
}
