// The lines that change nothing.
ghost use Rattle.std.specs.Prelude.{◌≤◌, length};

use crate::packages::show_packages;
use crate::packages_by_value::packages_by_value;
use crate::show::{show_answer, show_bytes, show_number, show_state, show_unknown};
use crate::waves::waves_line;
use change_info::change_info;
use cluster_info::cluster_info;
use four_state::status::status;
use payload::{payload, payload_check};
use progress::progress;
use reading_reply::ReadingReply;
use script::line::ScriptLine;
use script_calls::lent::lent;
use state::answer::Answer;
use state::state::State;
use std::io;

// Returns a number of a report in 32 bits: each is far below their end.
fn in_32_bits(n: usize) -> u32 {
    n.min(u32::MAX as usize) as u32
}

// Writes the reply of a reading call: a refusal, or its number by a name. Precondition: the name has at most 20 bytes; each caller gives a
// literal that is shorter.
pub fn show_reply(rt: &HostRuntime, name: &[u8], reply: ReadingReply) -> io::Result<()>
    requires { length name.now ≤ 20 }
{
    match reply {
        ReadingReply::Refused(number) => show_answer(rt, Answer::Refused(number)),
        ReadingReply::ShortBuffer(needed) => show_number(rt, b"refused 19 ", in_32_bits(needed)),
        ReadingReply::Given(n) => show_number(rt, name, in_32_bits(n)),
    }
}

// Writes the reply of a report, and the bytes that the report wrote.
fn show_report(rt: &HostRuntime, reply: ReadingReply, buffer: &[u8]) -> io::Result<()> {
    show_reply(rt, b"bytes ", reply)?;
    match reply {
        ReadingReply::Given(n) => rt.write_all(&buffer[..n.min(buffer.len())]),
        _ => Ok(()),
    }
}

// Makes ClusterInfo into the first bytes of a buffer, so many as the line says, and at most all.
fn clusters_line(
    rt: &HostRuntime,
    s: State,
    store: &[u8],
    room: u32,
    buffer: &mut [u8],
) -> io::Result<()> {
    let count = lent(room as usize, buffer.len());
    let reply = cluster_info(s, store, &mut buffer[..count]);
    show_report(rt, reply, buffer)
}

// Makes ChangeInfo into the first bytes of a buffer, likewise.
fn changes_line(
    rt: &HostRuntime,
    s: State,
    store: &[u8],
    room: u32,
    buffer: &mut [u8],
) -> io::Result<()> {
    let count = lent(room as usize, buffer.len());
    let reply = change_info(s, store, &mut buffer[..count]);
    show_report(rt, reply, buffer)
}

// Answers a line of a reading call or of the old status, or one that shows the manager's state or the store. Any other is `unknown`.
pub fn reading_line(
    rt: &HostRuntime,
    s: State,
    store: &[u8],
    line: ScriptLine,
    buffer: &mut [u8],
) -> io::Result<()> {
    match line {
        ScriptLine::Packages { room } => show_packages(
            rt,
            packages_by_value(s, store, room as usize),
        ),
        ScriptLine::Clusters { room } => clusters_line(rt, s, store, room, buffer),
        ScriptLine::Changes { room } => changes_line(rt, s, store, room, buffer),
        ScriptLine::Waves { room } => waves_line(rt, s, store, room),
        ScriptLine::Payload { id } => show_bytes(rt, b"payload ", payload(s, store, id)),
        ScriptLine::Check { id } => show_number(rt, b"check ", payload_check(s, store, id)),
        ScriptLine::Progress => show_reply(rt, b"progress ", progress(s, store)),
        ScriptLine::OldStatus => show_number(rt, b"old ", u32::from(status(s, store))),
        ScriptLine::State => show_state(rt, s, store),
        ScriptLine::Store => show_bytes(rt, b"store ", store),
        _ => show_unknown(rt),
    }
}
