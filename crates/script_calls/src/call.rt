// The lines of the twelve calls.
ghost use Rattle.std.specs.Prelude.{◌≡◌, ◌≤◌, length};
ghost use Rattle.request.specs.Call.{call_of};
ghost use Rattle.script_calls.specs.Kept.{line_outcome};
ghost use Rattle.script_calls.specs.Line.{calling, calling_data};

use crate::kept::{Kept, LineAnswer, Played};
use crate::lent::lent;
use manager::call;
use request::Request;
use script_bytes::block::put_block_bytes;

// Makes a call of the twelve on the bytes that are lent, with the block that is lent to it.
pub fn play_call(kept: Kept, bytes: &mut [u8], request: Request, block: &[u8]) -> Played
    ensures { line_outcome result bytes.new ≡ calling (call_of request block.now) kept bytes.old }
{
    let count = lent(kept.store_length, bytes.len());
    let made = call(kept.state, &mut bytes[..count], request, block);
    Played {
        answer: LineAnswer::Answer(made.answer),
        kept: Kept {
            state: made.state,
            ..kept
        },
    }
}

// Makes TransferData with the bytes that a word stands for. Precondition: the buffer is at least as long as the word; `play` requires
// one as long as the line.
pub fn play_data(
    kept: Kept,
    bytes: &mut [u8],
    id: u32,
    counter: u32,
    word: &[u8],
    buffer: &mut [u8],
) -> Played
    requires { length word.now ≤ length buffer.old }
    ensures { line_outcome result bytes.new ≡ calling_data id counter word.now kept bytes.old }
{
    let end = put_block_bytes(buffer, 0, word);
    play_call(
        kept,
        bytes,
        Request::TransferData(id, counter),
        &buffer[..end],
    )
}
