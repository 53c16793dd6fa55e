// The lines of the input: gathered, played and answered.
ghost use Rattle.std.specs.Prelude.{◌≤◌, length};
ghost use Rattle.replay_bench.specs.Input.{TakesInput};

use crate::answer::show_line_answer;
use crate::bench::{Bench, Gathering, bench_with, new_line};
use crate::gather::{ended_line, gather_part};
use crate::show::{is_written, show_unknown};
use script_calls::play::play;

// Takes every line of a part of the input, and what is left behind the last. Where a write fails, the rest is not taken. What is kept is
// handed to `play` from here, and not through functions that only hand it on: each would copy the State for each line. Precondition: the
// buffer is at least as long as that of the line; `play_standard_input` lends such buffers.
pub fn take_lines(
    rt: &HostRuntime,
    bench: Bench,
    bytes: &mut [u8],
    line: &mut [u8],
    input: &[u8],
    buffer: &mut [u8],
) -> Bench
    requires { length line.old ≤ length buffer.old }
    ensures { TakesInput bench line.old bytes.old input.now
        result line.new bytes.new }
{
    let mut kept = bench.kept;
    let mut gathering = bench.gathering;
    let mut at = 0;
    while at < input.len() {
        if !gathering.goes_on {
            return bench_with(kept, gathering);
        }
        let part = gather_part(line, gathering, input, at);
        gathering = part.gathering;
        if !part.ends_line {
            return bench_with(kept, gathering);
        }
        let gathered = gathering.gathered;
        let ended = ended_line(gathered, line);
        let read = ended.read;
        let played = play(kept, bytes, &line[..ended.text], read, buffer);
        kept = played.kept;
        let answer = played.answer;
        let shown = show_line_answer(rt, answer, kept, bytes, read, &line[..ended.count], buffer);
        gathering = new_line(is_written(rt, shown));
        at = part.end;
    }
    bench_with(kept, gathering)
}

// Answers a line without LF at the end of the input: it is `unknown`.
pub fn take_end(rt: &HostRuntime, gathering: Gathering) {
    let gathered = gathering.gathered;
    if gathered.is_too_long | (0 < gathered.count) {
        is_written(rt, show_unknown(rt));
    }
}
