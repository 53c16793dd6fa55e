// Counts the bytes of the changes of a session as text.
ghost use Rattle.std.specs.Prelude.{◌≡◌, ◌≤◌, length};
ghost use Rattle.actions.specs.View.{view_action};
ghost use Rattle.model.specs.Reading.{change_info_most};
ghost use Rattle.state.specs.View.{entries_most};
ghost use Rattle.change_info.specs.Changes.{change_line, changes_text};

use crate::word::word;
use actions::action::Action;
use state::session::Session;
use text::write::number_length;

// Counts the bytes of the line of an action: part number and word, the comma between them and the LF.
fn change_length(a: Action) -> usize
    ensures { result ≡ length (change_line (view_action a)) }
{
    number_length(a.cluster.part) + word(a).len() + 2
}

// Counts the bytes of the names line and the lines of the listed actions. Precondition: at most 16 actions are listed, and the text has at
// most 319 bytes; `report_changes` requires the same.
pub fn changes_length(session: Session) -> usize
    requires { (session.count ≤ entries_most) × (length (changes_text session) ≤ change_info_most) }
    ensures { result ≡ length (changes_text session) }
{
    let mut total = 15;
    for entry in &session.entries[..session.count] {
        total += change_length(entry.action);
    }
    total
}
