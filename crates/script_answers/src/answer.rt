// The answers of the twelve calls and of Load.
ghost use Rattle.std.specs.Prelude.{◌≤◌, length};
ghost use Rattle.io.specs.Counts.{IsPrefixLen};
ghost use Rattle.text.specs.Put.{Put};
ghost use Rattle.script_answers.specs.Answers.{answer_most, answer_text};

use crate::named::{put_line, put_named};
use state::answer::Answer;

// Puts the line of an answer at the start of a buffer. Precondition: the buffer has room for the longest; `replay` lends such a buffer.
pub fn put_answer(buf: &mut [u8], answer: Answer) -> usize
    requires { answer_most ≤ length buf.old }
    ensures line { Put buf.old 0 (answer_text answer) result buf.new }
    ensures inside { IsPrefixLen result buf.new }
{
    match answer {
        Answer::Id(id) => put_named(buf, 0, b"id ", id),
        Answer::Done => put_line(buf, b"Done\n"),
        Answer::Working => put_line(buf, b"Working\n"),
        Answer::Processed => put_line(buf, b"Processed\n"),
        Answer::Cancelled => put_line(buf, b"Cancelled\n"),
        Answer::Inconsistent => put_line(buf, b"Inconsistent\n"),
        Answer::PreActivationFailed => put_line(buf, b"PreActivationFailed\n"),
        Answer::MissingDependencies => put_line(buf, b"MissingDependencies\n"),
        Answer::VerificationFailed => put_line(buf, b"VerificationFailed\n"),
        Answer::NotAbleToRollback => put_line(buf, b"NotAbleToRollback\n"),
        Answer::NotAbleToRevert => put_line(buf, b"NotAbleToRevert\n"),
        Answer::CleaningFailed => put_line(buf, b"CleaningFailed\n"),
        Answer::Refused(number) => put_named(buf, 0, b"refused ", number),
    }
}
