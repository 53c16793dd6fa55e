// ChangeInfo: "ChangeInfo the session's list in order as names `cluster`, `change` with Added, Updated or Removed".
#![tactic(auto)]

mod length;
mod word;
mod write;

ghost use Rattle.std.specs.Prelude.{◌≡◌, true, ◌≤◌, length};
ghost use Rattle.model.specs.Sound.{sound_for};
ghost use Rattle.model.specs.Reading.{change_info, change_info_most, change_info_report};
ghost use Rattle.state.specs.View.{entries_most, view_state};
ghost use Rattle.reading_reply.specs.Reply.{view_report, report_on_sound};
ghost use Rattle.change_info.specs.Changes.{changes_text};

use crate::length::changes_length;
use crate::write::write_changes;
use reading_reply::ReadingReply;
use refusal::BAD_STATE;
use soundness::sound::sound;
use state::session::Session;
use state::state::State;

// Writes the changes into the lent buffer, if it has the room. Precondition: at most 16 actions are listed, and the text has at most 319
// bytes; `change_info_on_sound` requires a sound state, whose session is such.
fn report_changes(session: Session, buffer: &mut [u8]) -> ReadingReply
    requires { (session.count ≤ entries_most) × (length (changes_text session) ≤ change_info_most) }
    ensures { view_report result buffer.new ≡ report_on_sound (changes_text session) buffer.old }
{
    let needed = changes_length(session);
    if buffer.len() < needed {
        return ReadingReply::ShortBuffer(needed);
    }
    ReadingReply::Given(write_changes(buffer, session))
}

// Answers ChangeInfo. Precondition: the state is sound; `change_info` checks that before.
fn change_info_on_sound(s: State, store: &[u8], buffer: &mut [u8]) -> ReadingReply
    requires { sound_for (view_state s) (length store.now) ≡ true }
    ensures { view_report result buffer.new ≡ report_on_sound (change_info (view_state s)) buffer.old }
{
    report_changes(s.session, buffer)
}

pub fn change_info(s: State, store: &[u8], buffer: &mut [u8]) -> ReadingReply
    ensures { view_report result buffer.new ≡ change_info_report (view_state s) store.now buffer.old }
{
    if !sound(s, store.len()) {
        return ReadingReply::Refused(BAD_STATE);
    }
    change_info_on_sound(s, store, buffer)
}
