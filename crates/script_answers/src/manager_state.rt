// The answer to the line `state`.
ghost use Rattle.std.specs.Prelude.{◌≤◌, length};
ghost use Rattle.io.specs.Counts.{IsPrefixLen};
ghost use Rattle.text.specs.Put.{Put};
ghost use Rattle.state.specs.View.{view_phase, view_state};
ghost use Rattle.script_answers.specs.Answers.{answer_most};
ghost use Rattle.script_answers.specs.ManagerState.{state_line, state_answer};

use crate::answer::put_answer;
use crate::named::put_line;
use refusal::BAD_STATE;
use soundness::sound::sound;
use state::answer::Answer;
use state::phase::Phase;
use state::state::State;

// Puts the line with the state's name at the start of a buffer. Precondition: the buffer has room for the longest answer; `put_state`
// passes on such a buffer.
fn put_state_name(buf: &mut [u8], phase: Phase) -> usize
    requires { answer_most ≤ length buf.old }
    ensures line { Put buf.old 0 (state_line (view_phase phase)) result buf.new }
    ensures inside { IsPrefixLen result buf.new }
{
    match phase {
        Phase::Idle => put_line(buf, b"state Idle\n"),
        Phase::Ready => put_line(buf, b"state Ready\n"),
        Phase::Processing => put_line(buf, b"state Processing\n"),
        Phase::Activating => put_line(buf, b"state Activating\n"),
        Phase::Verifying => put_line(buf, b"state Verifying\n"),
        Phase::Activated => put_line(buf, b"state Activated\n"),
        Phase::RollingBack(_) => put_line(buf, b"state RollingBack\n"),
        Phase::RolledBack => put_line(buf, b"state RolledBack\n"),
        Phase::CleaningUp(_) => put_line(buf, b"state CleaningUp\n"),
    }
}

// Puts the answer to the line `state` at the start of a buffer: the state's name, or refusal 1 where the state is not sound. Precondition:
// the buffer has room for the longest answer; the program lends such a buffer.
pub fn put_state(buf: &mut [u8], s: State, store_length: usize) -> usize
    requires { answer_most ≤ length buf.old }
    ensures line { Put buf.old 0 (state_answer (view_state s) store_length) result buf.new }
    ensures inside { IsPrefixLen result buf.new }
{
    if !sound(s, store_length) {
        return put_answer(buf, Answer::Refused(BAD_STATE));
    }
    let phase = s.phase;
    put_state_name(buf, phase)
}
