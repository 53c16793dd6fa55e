// Lines written to standard output. Each function returns the error of a write that fails.
ghost use Rattle.std.specs.Prelude.{◌≡◌, ◌≤◌, length, is_ok};

use script_answers::answer::put_answer;
use script_answers::manager_state::put_state;
use script_answers::named::put_named;
use script_bytes::hex::put_bytes_digits;
use state::answer::Answer;
use state::state::State;
use std::io;

// How many bytes are shown by one write.
const PART: usize = 32768;

// Writes a line to standard error: which stream a read or a write of failed, and why.
pub fn show_failure(rt: &HostRuntime, stream: &str, e: io::Error) {
    let _ = rt.eprintln(format_args!("replay: {stream}: {e}"));
}

// Returns true if an answer was written. Where a write failed, standard error says why.
pub fn is_written(rt: &HostRuntime, shown: io::Result<()>) -> bool
    ensures { result ≡ is_ok shown }
{
    match shown {
        Ok(()) => true,
        Err(e) => {
            show_failure(rt, "standard output", e);
            false
        }
    }
}

pub fn show_unknown(rt: &HostRuntime) -> io::Result<()> {
    rt.write_all(b"unknown\n")
}

pub fn show_answer(rt: &HostRuntime, answer: Answer) -> io::Result<()> {
    let mut line = [0u8; 20];
    let end = put_answer(&mut line, answer);
    rt.write_all(&line[..end])
}

// Writes the answer to the line `state`.
pub fn show_state(rt: &HostRuntime, s: State, store: &[u8]) -> io::Result<()> {
    let mut line = [0u8; 20];
    let end = put_state(&mut line, s, store.len());
    rt.write_all(&line[..end])
}

// Writes a name and a number. Precondition: the name has at most 20 bytes; each caller gives a shorter literal, and `show_reply`
// requires the same.
pub fn show_number(rt: &HostRuntime, name: &[u8], n: u32) -> io::Result<()>
    requires { length name.now ≤ 20 }
{
    let mut line = [0u8; 40];
    let end = put_named(&mut line, 0, name, n);
    rt.write_all(&line[..end])
}

// Writes the digits of bytes. Precondition: they are at most as many as one write shows; `show_digits` passes no more.
fn show_part(rt: &HostRuntime, part: &[u8]) -> io::Result<()>
    requires { length part.now ≤ 32768 }
{
    let mut digits = [0u8; 2 * PART];
    let end = put_bytes_digits(&mut digits, 0, part);
    rt.write_all(&digits[..end])
}

// Writes the digits of bytes, part by part.
fn show_digits(rt: &HostRuntime, bytes: &[u8]) -> io::Result<()> {
    for part in bytes.chunks(PART) {
        show_part(rt, part)?;
    }
    Ok(())
}

// Writes a name and bytes as `HEX`: their digits, or `-`.
pub fn show_bytes(rt: &HostRuntime, name: &[u8], bytes: &[u8]) -> io::Result<()> {
    rt.write_all(name)?;
    if bytes.is_empty() {
        return rt.write_all(b"-\n");
    }
    show_digits(rt, bytes)?;
    rt.write_all(b"\n")
}
