// The three forms of `BYTES`.
ghost use Rattle.std.specs.Prelude.{◌≡◌};
ghost use Rattle.script_bytes.specs.Block.{form_of};

use crate::hex::is_digits;
use text::word::is_word;

#[derive(Clone, Copy)]
pub enum Form {
    // an even number of digits
    Digits,
    // `-`: no bytes
    Nothing,
    // `=` and text
    Typed,
}

// Returns the form of a word, or None where it has none.
#[tactic(auto, using(std::proofs::lemmas::Bool::Decides::nat_tests), unfolding(crate::specs::Block::form_of))]
pub fn form_of(word: &[u8]) -> Option<Form>
    ensures { result ≡ form_of word.now }
{
    if word.is_empty() {
        None
    } else if word[0] == b'=' {
        Some(Form::Typed)
    } else if is_word(word, b"-") {
        Some(Form::Nothing)
    } else if is_digits(word) {
        Some(Form::Digits)
    } else {
        None
    }
}
