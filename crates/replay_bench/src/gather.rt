// A line of the input, which comes in parts: gathered, and read where it has ended.
ghost use Rattle.std.specs.Prelude.{◌≡◌, true, ◌+◌, ◌-◌, ◌≤◌, ◌<◌, length, take, drop};
ghost use Rattle.script.specs.Gathered.{line_so_far};
ghost use Rattle.replay_bench.specs.Bench.{ended_line, EndsAs, ends_line};
ghost use Rattle.replay_bench.specs.Input.{up_to_line_end, GathersPart};

use crate::bench::Gathering;
use script::gathered::{Gathered, gather};
use script::line::{ScriptLine, script_line_at};
use text::cursor::Cursor;

// The line with a part of the input more, where the part ends, and whether it ends the line.
#[derive(Clone, Copy)]
pub struct Part {
    pub gathering: Gathering,
    pub end: usize,
    pub ends_line: bool,
}

// A line that has ended: how many bytes it has with its LF, how many without, and what it reads as.
#[derive(Clone, Copy)]
pub struct EndedLine {
    pub count: usize,
    pub text: usize,
    pub read: ScriptLine,
}

// Finds the position behind the next LF, or the end. Precondition: the position is within the input; `gather_part` requires it.
fn behind_line(input: &[u8], at: usize) -> usize
    requires { at < length input.now }
    ensures { (at < result) × (result ≤ length input.now) × (result ≡ at + length (up_to_line_end (drop at input.now))) }
{
    let end = byte_search::find(input, at, input.len(), b'\n');
    if end < input.len() {
        return end + 1;
    }
    end
}

// Says whether a part ends a line. Precondition: the part has a byte, as `behind_line` gives it.
fn ends_line(part: &[u8]) -> bool
    requires { 1 ≤ length part.now }
    ensures { result ≡ ends_line part.now }
{
    part[part.len() - 1] == b'\n'
}

// Gathers the part of the input from a position up to the next LF, or up to its end. Precondition: the position is within the input, and
// the program goes on; `take_lines` has tested both.
pub fn gather_part(line: &mut [u8], before: Gathering, input: &[u8], at: usize) -> Part
    requires { (at < length input.now) × (before.goes_on ≡ true) }
    ensures { (at < result.end) × (result.end ≤ length input.now)
        × GathersPart before line.old (drop at input.now) at result line.new }
{
    let end = behind_line(input, at);
    let gathered = gather(line, before.gathered, &input[at..end]);
    Part {
        gathering: Gathering {
            gathered,
            goes_on: true,
        },
        end,
        ends_line: ends_line(&input[at..end]),
    }
}

// Counts the bytes of a line that has ended: none of one that is too long, which is played as a line of no bytes.
fn ended_count(gathered: Gathered, line: &[u8]) -> usize
    ensures { (result ≤ length line.now)
        × (take result line.now ≡ ended_line (line_so_far gathered line.now)) }
{
    if gathered.is_too_long {
        0
    } else if line.len() < gathered.count {
        0
    } else {
        gathered.count
    }
}

// Counts the bytes of a line before its LF.
fn text_length(count: usize) -> usize
    ensures { result ≡ count - 1 }
{
    count.saturating_sub(1)
}

// Reads a line that has ended.
pub fn ended_line(gathered: Gathered, line: &[u8]) -> EndedLine
    ensures { (result.count ≤ length line.now) × (result.text ≤ length line.now)
        × EndsAs (line_so_far gathered line.now) line.now result }
{
    let count = ended_count(gathered, line);
    let text = text_length(count);
    let read = script_line_at(&line[..text], Cursor { at: 0 });
    EndedLine { count, text, read }
}
