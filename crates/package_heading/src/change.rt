// The action word of a package.
ghost use Rattle.std.specs.Prelude.{◌≡◌};
ghost use Rattle.package_heading.specs.Heading.{change_of};

use actions::action::Change;
use text::cursor::Cursor;
use text::word::is_word;

// Reads the change that a word names. The cursor is the one behind the word.
#[tactic(auto, unfolding(crate::specs::Heading::change_of))]
pub fn change_of(word: &[u8]) -> Option<(Change, Cursor)>
    ensures { result ≡ change_of word.now }
{
    let next = Cursor { at: word.len() };
    if is_word(word, b"install") {
        Some((Change::Install, next))
    } else if is_word(word, b"update") {
        Some((Change::Update, next))
    } else if is_word(word, b"remove") {
        Some((Change::Remove, next))
    } else {
        None
    }
}
