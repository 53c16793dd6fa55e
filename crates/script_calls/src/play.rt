// One line of the script.
ghost use Rattle.std.specs.Prelude.{◌≡◌, ◌≤◌, length};
ghost use Rattle.script_calls.specs.Kept.{line_outcome};
ghost use Rattle.script_calls.specs.Line.{line_gives};

use crate::call::{play_call, play_data};
use crate::kept::{Kept, LineAnswer, Played};
use crate::load_list::play_load;
use crate::old::play_old;
use crate::poke::play_poke;
use script::line::ScriptLine;
use script::place::part_at;

// Plays a line by what it reads as, on the program's bytes. Precondition: the buffer is at least as long as the line; the bench has one
// for the longest line.
pub fn play(
    kept: Kept,
    bytes: &mut [u8],
    text: &[u8],
    line: ScriptLine,
    buffer: &mut [u8],
) -> Played
    requires { length text.now ≤ length buffer.old }
    ensures { line_outcome result bytes.new ≡ line_gives text.now line kept bytes.old }
{
    match line {
        ScriptLine::Load { first, store, list } => play_load(
            kept,
            bytes,
            first,
            store,
            part_at(text, list),
            buffer,
        ),
        ScriptLine::Data { id, counter, block } => play_data(
            kept,
            bytes,
            id,
            counter,
            part_at(text, block),
            buffer,
        ),
        ScriptLine::Call(request) => play_call(kept, bytes, request, &buffer[..0]),
        ScriptLine::Old(call) => play_old(kept, bytes, call),
        ScriptLine::Poke { at, bytes: word } => play_poke(kept, bytes, at, part_at(text, word)),
        ScriptLine::OldStatus
        | ScriptLine::Packages { .. }
        | ScriptLine::Clusters { .. }
        | ScriptLine::Changes { .. }
        | ScriptLine::Waves { .. }
        | ScriptLine::Payload { .. }
        | ScriptLine::Check { .. }
        | ScriptLine::Progress
        | ScriptLine::State
        | ScriptLine::Store
        | ScriptLine::Remark => Played {
            answer: LineAnswer::Shown,
            kept,
        },
        ScriptLine::Unknown => Played {
            answer: LineAnswer::Unknown,
            kept,
        },
    }
}
