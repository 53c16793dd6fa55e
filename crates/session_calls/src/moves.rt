// What the four calls share: the permission, and the manager's state moved.
ghost use Rattle.session_calls.specs.Moved.{MovesTo};

use refusal::Refusal;
use state::answer::{Answer, Answered, answer_with, refuse};
use state::permissions::allowed;
use state::phase::Phase;
use state::state::{State, in_phase};

// Makes a call with a number after refusal 1: refuses by 3, or moves the manager's state to the next one and leaves all else as it was.
pub fn move_to(s: State, call: usize, next: Phase) -> Answered<Answer>
    ensures { MovesTo next s call result }
{
    if !allowed(s.phase, call) {
        return refuse(s, Refusal::OperationNotPermitted);
    }
    answer_with(Answer::Done, in_phase(s, next))
}
