// The bench that the program `replay` is: plays a script of calls from standard input against one manager and writes every answer to
// standard output. Each line is answered before more is read. It ends at the end of the input, or where a read or a write
// fails: standard error then says why.
#![tactic(auto)]

mod answer;
mod bench;
mod gather;
mod lines;
mod packages;
mod packages_by_value;
mod reading;
mod show;
mod waves;

ghost use Rattle.std.specs.Prelude.{◌≡◌, true, ◌≤◌, length};
ghost use Rattle.script.specs.Limits.{store_most, line_most};

use crate::bench::{Bench, first_bench, stopped};
use crate::lines::{take_end, take_lines};
use crate::show::show_failure;
use script::limits::{LINE_MOST, STORE_MOST};
use std::io::Read;

// Returns the bytes of the program's store. The contract says how many they are, so that they can be lent as a slice; so below.
fn store_bytes() -> [u8; STORE_MOST as usize]
    ensures { store_most ≡ length result }
{
    [0; STORE_MOST as usize]
}

// Returns room for a line, or for the bytes of one.
fn line_bytes() -> [u8; LINE_MOST]
    ensures { line_most ≡ length result }
{
    [0; LINE_MOST]
}

// Reads once and plays what came. Precondition: the buffer is at least as long as that of the line, as `play_standard_input` lends them,
// and the bench goes on, which `read_all` has tested.
fn read_some(
    rt: &HostRuntime,
    bench: Bench,
    bytes: &mut [u8],
    line: &mut [u8],
    input: &mut [u8],
    buffer: &mut [u8],
) -> Bench
    requires line_in_bounds { length line.old ≤ length buffer.old }
    requires goes_on_value { bench.gathering.goes_on ≡ true }
{
    let mut stdin = rt.stdin();
    match stdin.read(input) {
        Err(e) => {
            show_failure(rt, "standard input", e);
            stopped(bench)
        }
        Ok(0) => {
            take_end(rt, bench.gathering);
            stopped(bench)
        }
        Ok(count) => take_lines(rt, bench, bytes, line, &input[..count], buffer),
    }
}

// Reads and plays until the program ends. A proved loop has to end, and nothing says that an input does: there are more turns than a
// run uses up. Precondition: the buffer is at least as long as that of the line; `play_standard_input` lends such buffers.
fn read_all(
    rt: &HostRuntime,
    bytes: &mut [u8],
    line: &mut [u8],
    input: &mut [u8],
    buffer: &mut [u8],
)
    requires { length line.old ≤ length buffer.old }
{
    let mut bench = first_bench();
    for _ in 0..u64::MAX {
        if !bench.gathering.goes_on {
            return;
        }
        bench = read_some(rt, bench, bytes, line, input, buffer);
    }
}

// Plays the script that standard input has.
pub fn play_standard_input(rt: &HostRuntime) {
    let mut bytes = store_bytes();
    let mut line = line_bytes();
    let mut input = [0u8; 65536];
    let mut buffer = line_bytes();
    read_all(rt, &mut bytes, &mut line, &mut input, &mut buffer);
}
