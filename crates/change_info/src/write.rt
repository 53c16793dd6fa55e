// Writes the changes of a session as text. Precondition of each function: the text fits into the buffer from the place on, and at most 16
// actions are listed; `report_changes` compares the length of the whole, known beforehand, with the buffer's, and requires the other.
ghost use Rattle.std.specs.Prelude.{◌+◌, ◌≤◌, length};
ghost use Rattle.text.specs.Put.{Put};
ghost use Rattle.actions.specs.View.{view_action};
ghost use Rattle.model.specs.Reading.{change_lines};
ghost use Rattle.state.specs.View.{entries_most};
ghost use Rattle.change_info.specs.Changes.{change_line, listed_actions, changes_text};

use crate::word::word;
use actions::action::Action;
use state::session::Session;
use text::write::{put_bytes, put_number};

// Puts the line of an action.
fn put_change(buffer: &mut [u8], at: usize, a: Action) -> usize
    requires { at + length (change_line (view_action a)) ≤ length buffer.old }
    ensures { Put buffer.old at (change_line (view_action a)) result buffer.new }
{
    let behind_part = put_number(buffer, at, a.cluster.part);
    buffer[behind_part] = b',';
    let behind_word = put_bytes(buffer, behind_part + 1, word(a));
    buffer[behind_word] = b'\n';
    behind_word + 1
}

// Puts the lines of the listed actions.
fn put_changes(buffer: &mut [u8], from: usize, session: Session) -> usize
    requires { (session.count ≤ entries_most) × (from + length (change_lines (listed_actions session)) ≤ length buffer.old) }
    ensures { Put buffer.old from (change_lines (listed_actions session)) result buffer.new }
{
    let mut at = from;
    for entry in &session.entries[..session.count] {
        at = put_change(buffer, at, entry.action);
    }
    at
}

// Writes the changes at the start of the buffer and gives their length.
pub fn write_changes(buffer: &mut [u8], session: Session) -> usize
    requires { (session.count ≤ entries_most) × (length (changes_text session) ≤ length buffer.old) }
    ensures { Put buffer.old 0 (changes_text session) result buffer.new }
{
    let behind_names = put_bytes(buffer, 0, b"cluster,change\n");
    put_changes(buffer, behind_names, session)
}
