// Prints what a call answers.
use cases::show;
use state::answer::{Answer, Answered};
use state::state::State;
use std::io;

fn show_named(rt: &HostRuntime, answer: Answer) -> io::Result<()> {
    match answer {
        Answer::Id(id) => {
            show::bytes(rt, b" id ")?;
            show::number(rt, id)
        }
        Answer::Done => show::bytes(rt, b" Done"),
        Answer::Working => show::bytes(rt, b" Working"),
        Answer::Processed => show::bytes(rt, b" Processed"),
        Answer::Cancelled => show::bytes(rt, b" Cancelled"),
        Answer::Inconsistent => show::bytes(rt, b" Inconsistent"),
        Answer::PreActivationFailed => show::bytes(rt, b" PreActivationFailed"),
        Answer::MissingDependencies => show::bytes(rt, b" MissingDependencies"),
        Answer::VerificationFailed => show::bytes(rt, b" VerificationFailed"),
        Answer::NotAbleToRollback => show::bytes(rt, b" NotAbleToRollback"),
        Answer::NotAbleToRevert => show::bytes(rt, b" NotAbleToRevert"),
        Answer::CleaningFailed => show::bytes(rt, b" CleaningFailed"),
        Answer::Refused(number) => {
            show::bytes(rt, b" refused ")?;
            show::number(rt, number)
        }
    }
}

// Prints the answer and returns the state.
pub fn show_answer(rt: &HostRuntime, r: Answered<Answer>) -> io::Result<State> {
    show_named(rt, r.answer)?;
    Ok(r.state)
}
