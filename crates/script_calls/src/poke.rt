// The line of another writer.
ghost use Rattle.std.specs.Prelude.{◌≡◌};
ghost use Rattle.script_bytes.specs.Block.{block_bytes};
ghost use Rattle.script_calls.specs.Kept.{line_outcome};
ghost use Rattle.script_calls.specs.Line.{Poked, poke_answer, poking};

use crate::kept::{Kept, LineAnswer, Played};
use crate::lent::lent;
use script_bytes::block::{block_length, put_block_bytes};
use state::answer::Answer;

// Puts the bytes that a word stands for into the store, where they fit whole; returns true if they do.
fn poke(store: &mut [u8], at: usize, word: &[u8]) -> bool
    ensures { Poked at (block_bytes word.now) store.old result store.new }
{
    if store.len() < at || store.len() - at < block_length(word) {
        return false;
    }
    put_block_bytes(store, at, word);
    true
}

fn poke_answer(is_put: bool) -> LineAnswer
    ensures { result ≡ poke_answer is_put }
{
    if is_put {
        LineAnswer::Answer(Answer::Done)
    } else {
        LineAnswer::Unknown
    }
}

// Puts the bytes that a word stands for into the store that is lent, as another writer would.
pub fn play_poke(kept: Kept, bytes: &mut [u8], at: u32, word: &[u8]) -> Played
    ensures { line_outcome result bytes.new ≡ poking at (block_bytes word.now) kept bytes.old }
{
    let count = lent(kept.store_length, bytes.len());
    let is_put = poke(&mut bytes[..count], at as usize, word);
    Played {
        answer: poke_answer(is_put),
        kept,
    }
}
