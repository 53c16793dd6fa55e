// What the twelve calls answer.
ghost use Rattle.std.specs.Prelude.{◌≡◌};
ghost use Rattle.refusal.specs.Number.{number_of};
ghost use Rattle.state.specs.Outcome.{refused_by, answered};

use crate::state::State;
use refusal::Refusal;

// The answers of document 01 by their names, the id that TransferStart gives, and a refusal, which is its number alone.
#[derive(Clone, Copy)]
pub enum Answer {
    Id(u32),
    Done,
    Working,
    Processed,
    Cancelled,
    Inconsistent,
    PreActivationFailed,
    MissingDependencies,
    VerificationFailed,
    NotAbleToRollback,
    NotAbleToRevert,
    CleaningFailed,
    Refused(u32),
}

// A call's answer, of whatever kind, and the state then.
#[derive(Clone, Copy)]
pub struct Answered<A> {
    pub answer: A,
    pub state: State,
}

// Refuses with a number and gives back the very state that came in.
pub fn refused(s: State, number: u32) -> Answered<Answer>
    ensures { result ≡ refused_by s number }
{
    Answered {
        answer: Answer::Refused(number),
        state: s,
    }
}

// Refuses with a refusal's number and gives back the very state that came in.
pub fn refuse(s: State, refusal: Refusal) -> Answered<Answer>
    ensures { result ≡ refused_by s (number_of refusal) }
{
    refused(s, refusal.number())
}

pub fn answer_with<A: Copy>(answer: A, s: State) -> Answered<A>
    ensures { result ≡ answered answer s }
{
    Answered { answer, state: s }
}
