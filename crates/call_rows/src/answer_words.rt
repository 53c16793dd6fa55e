// An answer in numbers: two words.
ghost use Rattle.std.specs.Prelude.{◌≡◌};
ghost use Rattle.state.specs.Outcome.{reply_of};
ghost use Rattle.four_state.specs.MixedLists.{by_twelve, by_four};
ghost use Rattle.call_rows.specs.Answers.{words, answer_words};

use state::answer::Answer;

// Which of the answers it is, and the id, the refusal number or the old answer; 0 where there is none.
#[derive(Clone, Copy)]
pub struct AnswerWords {
    pub kind: u32,
    pub value: u32,
}

fn two_words(kind: u32, value: u32) -> AnswerWords
    ensures { result ≡ words kind value }
{
    AnswerWords { kind, value }
}

// Returns the two words of an answer of the twelve.
pub fn answer_words(answer: Answer) -> AnswerWords
    ensures { result ≡ answer_words (by_twelve (reply_of answer)) }
{
    match answer {
        Answer::Id(id) => two_words(0, id),
        Answer::Done => two_words(1, 0),
        Answer::Working => two_words(2, 0),
        Answer::Processed => two_words(3, 0),
        Answer::Cancelled => two_words(4, 0),
        Answer::Inconsistent => two_words(5, 0),
        Answer::PreActivationFailed => two_words(6, 0),
        Answer::MissingDependencies => two_words(7, 0),
        Answer::VerificationFailed => two_words(8, 0),
        Answer::NotAbleToRollback => two_words(9, 0),
        Answer::NotAbleToRevert => two_words(10, 0),
        Answer::CleaningFailed => two_words(11, 0),
        Answer::Refused(number) => two_words(12, number),
    }
}

// Returns the two words of an answer of the old four.
pub fn old_answer_words(answer: u8) -> AnswerWords
    ensures { result ≡ answer_words (by_four answer) }
{
    two_words(13, answer as u32)
}
