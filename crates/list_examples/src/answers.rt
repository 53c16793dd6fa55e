// Prints what the calls of a list answer.
use cases::show;
use state::phase::phase_number;
use state::state::State;
use std::io;

// Prints a word and a number behind it.
fn show_numbered(rt: &HostRuntime, word: &[u8], value: u32) -> io::Result<()> {
    show::bytes(rt, word)?;
    show::number(rt, value)
}

// Prints the name of an answer by its two words.
fn show_answer(rt: &HostRuntime, kind: u32, value: u32) -> io::Result<()> {
    match kind {
        0 => show_numbered(rt, b"id ", value),
        1 => show::bytes(rt, b"Done"),
        2 => show::bytes(rt, b"Working"),
        3 => show::bytes(rt, b"Processed"),
        4 => show::bytes(rt, b"Cancelled"),
        5 => show::bytes(rt, b"Inconsistent"),
        6 => show::bytes(rt, b"PreActivationFailed"),
        7 => show::bytes(rt, b"MissingDependencies"),
        8 => show::bytes(rt, b"VerificationFailed"),
        9 => show::bytes(rt, b"NotAbleToRollback"),
        10 => show::bytes(rt, b"NotAbleToRevert"),
        11 => show::bytes(rt, b"CleaningFailed"),
        12 => show_numbered(rt, b"refused ", value),
        13 => show_numbered(rt, b"old ", value),
        _ => show_numbered(rt, b"unknown kind ", kind),
    }
}

// Prints the answers of so many calls, two words for each.
pub fn show_answers(rt: &HostRuntime, words: &[u32], calls: usize) -> io::Result<()> {
    let (answers, _) = words.as_chunks::<2>();
    for [kind, value] in answers.iter().take(calls) {
        show::byte(rt, b' ')?;
        show_answer(rt, *kind, *value)?;
        show::byte(rt, b',')?;
    }
    Ok(())
}

// Prints the number of the manager's state, which ends the line.
pub fn show_state(rt: &HostRuntime, s: State) -> io::Result<()> {
    show::bytes(rt, b" state ")?;
    show::count(rt, phase_number(s.phase))?;
    show::byte(rt, b'\n')
}
