// The answer to a line of the script that was played.
use crate::reading::reading_line;
use crate::show::{show_answer, show_number, show_unknown};
use script::line::ScriptLine;
use script_calls::kept::{Kept, LineAnswer};
use script_calls::lent::lent;
use state::state::State;
use std::io;

// Writes the answer to a line that changes nothing, on the part of the program's bytes that is lent.
fn show_reading(
    rt: &HostRuntime,
    s: State,
    store: &[u8],
    read: ScriptLine,
    line: &[u8],
    buffer: &mut [u8],
) -> io::Result<()> {
    match read {
        ScriptLine::Remark => rt.write_all(line),
        _ => reading_line(rt, s, store, read, buffer),
    }
}

// Writes the answer to a line, with what is kept then.
pub fn show_line_answer(
    rt: &HostRuntime,
    answer: LineAnswer,
    kept: Kept,
    bytes: &[u8],
    read: ScriptLine,
    line: &[u8],
    buffer: &mut [u8],
) -> io::Result<()> {
    match answer {
        LineAnswer::Answer(given) => show_answer(rt, given),
        LineAnswer::Old(n) => show_number(rt, b"old ", u32::from(n)),
        LineAnswer::Unknown => show_unknown(rt),
        LineAnswer::Shown => {
            let count = lent(kept.store_length, bytes.len());
            show_reading(rt, kept.state, &bytes[..count], read, line, buffer)
        }
    }
}
