// Lines of the old calls: the words behind `old`.
ghost use Rattle.std.specs.Prelude.{◌≡◌};
ghost use Rattle.script.specs.Line.{old_fixed_line, old_cancel_line, old_line};

use crate::limits::NUMBER_MOST;
use crate::line::ScriptLine;
use crate::words::{last_number, word_end};
use four_state::call::OldCall;
use text::cursor::Cursor;
use text::word::is_word;

// Reads the status and the calls without an id.
#[tactic(auto, unfolding(crate::specs::Line::old_fixed_line))]
fn old_fixed_line(s: &[u8]) -> ScriptLine
    ensures { result ≡ old_fixed_line s.now }
{
    if is_word(s, b"status") {
        ScriptLine::OldStatus
    } else if is_word(s, b"activate") {
        ScriptLine::Old(OldCall::Activate)
    } else if is_word(s, b"revert") {
        ScriptLine::Old(OldCall::Revert)
    } else if is_word(s, b"rollback") {
        ScriptLine::Old(OldCall::Rollback)
    } else {
        ScriptLine::Unknown
    }
}

// Reads the id behind `old cancel`.
#[tactic(auto, unfolding(crate::specs::Line::old_cancel_line))]
fn old_cancel_line(s: &[u8], cursor: Cursor) -> ScriptLine
    ensures { result ≡ old_cancel_line s.now cursor.at }
{
    let Some((id, _)) = last_number(s, cursor, NUMBER_MOST) else {
        return ScriptLine::Unknown;
    };
    ScriptLine::Old(OldCall::Cancel(id))
}

// Reads the words behind `old`.
pub fn old_line(s: &[u8], cursor: Cursor) -> ScriptLine
    ensures { result ≡ old_line s.now cursor.at }
{
    let from = cursor.at;
    if s.len() < from {
        return ScriptLine::Unknown;
    }
    let end = word_end(s, from);
    if is_word(&s[from..end], b"cancel") {
        return old_cancel_line(s, Cursor { at: end + 1 });
    }
    old_fixed_line(&s[from..])
}
