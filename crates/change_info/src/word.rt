// The word of a change.
ghost use Rattle.std.specs.Prelude.{◌≡◌, ◌≤◌, length};
ghost use Rattle.actions.specs.View.{view_action};
ghost use Rattle.model.specs.Reading.{change_word};

use actions::action::{Action, Change};

// Returns the word of an action: "Added, Updated or Removed".
pub fn word(a: Action) -> &'static [u8]
    ensures meaning { result.now ≡ change_word (view_action a) }
    ensures most { length result.now ≤ 7 }
{
    match a.change {
        Change::Install => b"Added",
        Change::Update => b"Updated",
        Change::Remove => b"Removed",
    }
}
