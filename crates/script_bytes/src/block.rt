// The bytes that a word stands for.
ghost use Rattle.std.specs.Prelude.{◌≡◌, map, ◌+◌, ◌≤◌, length};
ghost use Rattle.text.specs.Put.{Put};
ghost use Rattle.script_bytes.specs.Block.{typed_byte, block_bytes};

use crate::form::{Form, form_of};
use crate::hex::put_digits_bytes;

// Counts the bytes that a word stands for.
pub fn block_length(word: &[u8]) -> usize
    ensures { result ≡ length (block_bytes word.now) }
{
    match form_of(word) {
        Some(Form::Digits) => word.len() / 2,
        Some(Form::Typed) => word.len() - 1,
        Some(Form::Nothing) => 0,
        None => 0,
    }
}

// Gives the byte that a byte of typed text stands for.
#[tactic(auto, using(std::proofs::lemmas::Bool::Decides::nat_tests), unfolding(crate::specs::Block::typed_byte))]
fn typed_byte(b: u8) -> u8
    ensures { result ≡ typed_byte b }
{
    match b {
        b';' => b'\n',
        _ => b,
    }
}

// Puts the bytes of typed text. Precondition: they fit the buffer; `put_block_bytes` requires it.
fn put_typed(buf: &mut [u8], at: usize, text: &[u8]) -> usize
    requires { at + length (map typed_byte text.now) ≤ length buf.old }
    ensures { Put buf.old at (map typed_byte text.now) result buf.new }
{
    for (i, b) in text.iter().enumerate() {
        buf[at + i] = typed_byte(*b);
    }
    at + text.len()
}

// Puts the bytes that a word stands for. Precondition: they fit the buffer; `replay` compares `block_length` with the room of its buffer
// or of the store.
pub fn put_block_bytes(buf: &mut [u8], at: usize, word: &[u8]) -> usize
    requires { at + length (block_bytes word.now) ≤ length buf.old }
    ensures { Put buf.old at (block_bytes word.now) result buf.new }
{
    match form_of(word) {
        Some(Form::Digits) => put_digits_bytes(buf, at, word),
        Some(Form::Typed) => put_typed(buf, at, &word[1..]),
        Some(Form::Nothing) => at,
        None => at,
    }
}
