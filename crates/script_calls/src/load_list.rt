// The line of Load.
ghost use Rattle.std.specs.Prelude.{◌≡◌, ◌≤◌, length};
ghost use Rattle.script_bytes.specs.Block.{block_bytes};
ghost use Rattle.script_calls.specs.Kept.{line_outcome};
ghost use Rattle.script_calls.specs.Line.{length_after, loading};

use crate::kept::{Kept, LineAnswer, Played};
use script_bytes::block::put_block_bytes;
use state::answer::Answer;

// Says how many bytes are lent after Load: as many as the line says, or as before.
fn length_after(answer: Answer, before: usize, size: usize) -> usize
    ensures { result ≡ length_after answer before size }
{
    match answer {
        Answer::Refused(_) => before,
        _ => size,
    }
}

// Makes Load with a list on the first of the program's bytes, so many as the line says.
fn play_list(kept: Kept, bytes: &mut [u8], first: u32, size: u32, list: &[u8]) -> Played
    ensures { line_outcome result bytes.new ≡ loading first size list.now kept bytes.old }
{
    let count = size as usize;
    if bytes.len() < count {
        return Played {
            answer: LineAnswer::Unknown,
            kept,
        };
    }
    let made = load::load(kept.state, list, first, &mut bytes[..count]);
    Played {
        answer: LineAnswer::Answer(made.answer),
        kept: Kept {
            state: made.state,
            store_length: length_after(made.answer, kept.store_length, count),
        },
    }
}

// Does the same with the list that a word stands for. Precondition: the buffer is at least as long as the word; `play` requires one
// as long as the line.
pub fn play_load(
    kept: Kept,
    bytes: &mut [u8],
    first: u32,
    size: u32,
    word: &[u8],
    buffer: &mut [u8],
) -> Played
    requires { length word.now ≤ length buffer.old }
    ensures { line_outcome result bytes.new ≡ loading first size (block_bytes word.now) kept bytes.old }
{
    let end = put_block_bytes(buffer, 0, word);
    play_list(kept, bytes, first, size, &buffer[..end])
}
