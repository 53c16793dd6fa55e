// Exercises the functions on good and damaged input and prints what each gives. The cases are data: the file stdin beside src/ has
// them, in the form that `case` says, and the file stdout what must be printed, written from document 01.
#![tactic(auto)]

mod comparisons;
mod kinds;
mod lists;
mod numbers;
mod packages;
mod sums;
mod table_actions;
mod versions;

use crate::kinds::show_case;
use cases::case::without_end;
use cases::input::read_full;
use std::io;

// Prints each case, from behind its `#` to the next. The first byte is the first `#`.
fn show_cases(rt: &HostRuntime, input: &[u8]) -> io::Result<()> {
    let Some((_, cases)) = input.split_first() else {
        return Ok(());
    };
    for case in cases.split_inclusive(|b| *b == b'#') {
        show_case(rt, without_end(case, b'#'))?;
    }
    Ok(())
}

fn main(rt: HostRuntime) -> io::Result<()> {
    let mut input = [0u8; 65536];
    let length = read_full(&rt, &mut input)?;
    show_cases(&rt, &input[..length])
}
