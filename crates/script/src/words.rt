// Words of a line, which are parted by one space, and numbers as words. A line is lent without its LF, and a word is read at a
// position of it, so that a line can stand behind other text.
ghost use Rattle.std.specs.Prelude.{position, ◌==◌, ◌≡◌, ◌+◌, ◌≤◌, length, drop};
ghost use Rattle.script.specs.Words.{space, word, number_word, last_number};

use text::cursor::Cursor;
use text::number::whole_number;

// Finds the first space of a text.
fn first_space(s: &[u8]) -> Option<usize>
    ensures { result ≡ position (λ b. b == space) s.now }
{
    s.iter().position(|b| *b == b' ')
}

// Finds where the word at a position ends: the next space or the end of the line. Precondition: the position is within the line or at its
// end; its callers have tested it.
pub fn word_end(s: &[u8], from: usize) -> usize
    requires { from ≤ length s.now }
    ensures end { result ≡ from + length (word (drop from s.now)) }
    ensures within { result ≤ length s.now }
{
    match first_space(&s[from..]) {
        Some(length) => from + length,
        None => s.len(),
    }
}

// Reads the number that the word at a cursor is; gives the cursor behind the word and the byte that ends it too.
pub fn number_word(s: &[u8], cursor: Cursor, most: u32) -> Option<(u32, Cursor)>
    ensures { result ≡ number_word s.now cursor.at most }
{
    if s.len() < cursor.at {
        return None;
    }
    let end = word_end(s, cursor.at);
    let (n, _) = whole_number(&s[cursor.at..end], most)?;
    Some((n, Cursor { at: end + 1 }))
}

// Does the same for the last word of the line.
#[tactic(auto, unfolding(crate::specs::Words::last_number))]
pub fn last_number(s: &[u8], cursor: Cursor, most: u32) -> Option<(u32, Cursor)>
    ensures { result ≡ last_number s.now cursor.at most }
{
    let (n, next) = number_word(s, cursor, most)?;
    if next.at <= s.len() {
        return None;
    }
    Some((n, next))
}
