// What the old calls answer: a byte, as in source document 002.
ghost use Rattle.std.specs.Prelude.{◌≡◌};
ghost use Rattle.four_state.specs.Exact.{answered_by};

use state::answer::{Answer, Answered, answer_with};

// The answer of a call that was begun.
const SUCCESS: u8 = 0;

// Answers by what the twelve's call gave: 0 where it was accepted, and for any other refusal the old call's number.
pub fn answer_by(made: Answered<Answer>, other_refusal: u8) -> Answered<u8>
    ensures { result ≡ answered_by made other_refusal }
{
    let answer = match made.answer {
        Answer::Refused(_) => other_refusal,
        _ => SUCCESS,
    };
    answer_with(answer, made.state)
}
