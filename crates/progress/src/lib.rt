// Progress: "Progress is floor(100 × done / payload), 100 for payload 0, and 0 outside Processing."
#![tactic(auto)]

ghost use Rattle.std.specs.Prelude.{◌≡◌, true, ◌*◌, ◌/◌, ◌≤◌, length};
ghost use Rattle.std.proofs.Math.Option.{some};
ghost use Rattle.model.specs.Sound.{sound_for};
ghost use Rattle.model.specs.Reading.{given, progress_of, progress};
ghost use Rattle.state.specs.View.{kept_work, view_state};
ghost use Rattle.reading_reply.specs.Reply.{reply_of};

use reading_reply::ReadingReply;
use refusal::BAD_STATE;
use soundness::sound::sound;
use state::phase::Phase;
use state::state::State;
use state::work::Work;

// Computes "floor(100 × done / payload)": the product has 64 bits. Precondition: the payload is not 0; `percentage` compares it before.
fn floor(done: u32, payload: u32) -> u64
    requires { 1 ≤ payload }
    ensures { result ≡ 100 * done / payload }
{
    100 * done as u64 / payload as u64
}

// Gives the percentage of the payload that is done, whatever is kept.
fn percentage(w: Work) -> usize
    ensures { result ≡ progress_of (some (kept_work w)) }
{
    if w.count == 0 {
        100
    } else {
        floor(w.done, w.count) as usize
    }
}

// Answers Progress. Precondition: the state is sound; `progress` checks that before.
fn progress_on_sound(s: State, store: &[u8]) -> ReadingReply
    requires { sound_for (view_state s) (length store.now) ≡ true }
    ensures { reply_of result ≡ given (progress_of (view_state s).work) }
{
    if s.phase == Phase::Processing {
        ReadingReply::Given(percentage(s.work))
    } else {
        ReadingReply::Given(0)
    }
}

pub fn progress(s: State, store: &[u8]) -> ReadingReply
    ensures { reply_of result ≡ progress (view_state s) store.now }
{
    if !sound(s, store.len()) {
        return ReadingReply::Refused(BAD_STATE);
    }
    progress_on_sound(s, store)
}
