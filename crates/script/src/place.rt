// Where the bytes of a line stand in it.
ghost use Rattle.std.specs.Prelude.{◌≡◌};
ghost use Rattle.script.specs.Place.{last_block, part_at};

use crate::words::word_end;
use script_bytes::form::form_of;
use text::cursor::Cursor;

// Where a word stands in its line.
#[derive(Clone, Copy)]
pub struct Place {
    pub from: usize,
    pub to: usize,
}

// Finds the place of the word at a cursor, which is `BYTES` and the last of the line.
pub fn last_block(s: &[u8], cursor: Cursor) -> Option<Place>
    ensures { result ≡ last_block s.now cursor.at }
{
    let from = cursor.at;
    if s.len() < from {
        return None;
    }
    let to = word_end(s, from);
    if to < s.len() {
        return None;
    }
    form_of(&s[from..to])?;
    Some(Place { from, to })
}

// Gives the bytes of a line at a place; none where the place is not within it.
#[tactic(auto, unfolding(crate::specs::Place::part_at))]
pub fn part_at(s: &[u8], place: Place) -> &[u8]
    ensures { result.now ≡ part_at s.now place }
{
    s.get(place.from..place.to).unwrap_or(&[])
}
