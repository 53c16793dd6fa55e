// The start waves.
use crate::reading::show_reply;
use reading_reply::ReadingReply;
use script::limits::WAVES_MOST;
use script_answers::named::put_wave;
use script_calls::lent::lent;
use start_waves::waves;
use state::state::State;
use std::io;

// The numbers of the list: two for each entry that a line may ask for.
const NUMBERS_MOST: usize = 2 * (WAVES_MOST as usize);

// Writes an entry.
fn show_wave(rt: &HostRuntime, part: u32, wave: u32) -> io::Result<()> {
    let mut line = [0u8; 22];
    let end = put_wave(&mut line, part, wave);
    rt.write_all(&line[..end])
}

// Writes the first entries of a list, so many as are asked for, and at most all.
fn show_entries(rt: &HostRuntime, list: &[u32], count: usize) -> io::Result<()> {
    let (entries, _) = list.as_chunks::<2>();
    for [part, wave] in entries.iter().take(count) {
        show_wave(rt, *part, *wave)?;
    }
    Ok(())
}

// Writes the reply, and the entries where there are some.
fn show_waves(rt: &HostRuntime, reply: ReadingReply, list: &[u32]) -> io::Result<()> {
    show_reply(rt, b"waves ", reply)?;
    match reply {
        ReadingReply::Given(n) => show_entries(rt, list, n),
        _ => Ok(()),
    }
}

// Makes the start waves into a list of the bench's own, so much of it as the line says, and at most all.
pub fn waves_line(rt: &HostRuntime, s: State, store: &[u8], room: u32) -> io::Result<()> {
    let mut list = [0u32; NUMBERS_MOST];
    let count = lent(2 * (room as usize), NUMBERS_MOST);
    let reply = waves(s, store, &mut list[..count]);
    show_waves(rt, reply, &list)
}
