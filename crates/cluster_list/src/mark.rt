// The mark of a line of the list. A list of four names has no field for it.
ghost use Rattle.std.specs.Prelude.{◌≡◌, drop};
ghost use Rattle.cluster_list.specs.Mark.{commas_of, mark_field, no_mark};

use rows::reader::{cell_at, cell_is_empty};
use text::cursor::Cursor;
use text::number::whole_number;

// Returns the number of commas of every line: a line has as many fields as there are names.
pub fn commas_of(stays: Option<usize>) -> usize
    ensures { result ≡ commas_of stays }
{
    match stays {
        Some(_) => 4,
        None => 3,
    }
}

// Reads the mark of the line at a cursor, which begins a cluster: 0 or 1, and 0 in a list of four names.
#[tactic(auto, unfolding(crate::specs::Mark::mark_field))]
pub fn mark_field(s: &[u8], line: Cursor, stays: Option<usize>) -> Option<(u32, Cursor)>
    ensures { result ≡ mark_field stays (drop line.at s.now) }
{
    match stays {
        Some(k) => whole_number(cell_at(s, line, k), 1),
        None => Some((0, Cursor { at: 0 })),
    }
}

// Returns true if the line at a cursor, which adds a need, leaves the mark empty.
#[tactic(auto, unfolding(crate::specs::Mark::no_mark))]
pub fn no_mark(s: &[u8], line: Cursor, stays: Option<usize>) -> bool
    ensures { result ≡ no_mark stays (drop line.at s.now) }
{
    match stays {
        Some(k) => cell_is_empty(s, line, k),
        None => true,
    }
}
