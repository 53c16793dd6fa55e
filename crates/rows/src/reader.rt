// The line reader: a struct that holds its text and the position of a line in it. It leaves the work to the functions on a text and a
// position. `line_at` and `cell_at` have plain parameters and serve every other reader.
ghost use Rattle.std.specs.Prelude.{◌≡◌, drop};
ghost use Rattle.rows.specs.Field.{cell, is_empty};
ghost use Rattle.rows.specs.Line.{line_from};

use crate::field::cell_from;
use crate::line::line_from;
use text::cursor::Cursor;

#[derive(Clone, Copy)]
pub struct LineReader<'a> {
    pub text: &'a [u8],
    pub at: usize,
}

impl<'a> LineReader<'a> {
    // Reads the reader's line, which has one field more than commas: the cursor behind its LF.
    pub fn read_line(self, commas: usize) -> Option<Cursor>
        ensures { result ≡ line_from commas self.entry.at (drop self.entry.at self.entry.text.now) }
    {
        line_from(self.text, self.at, commas)
    }

    // Gives field number k of the reader's line, counted from 0: the part of the text itself.
    pub fn read_cell(self, k: usize) -> &'a [u8]
        ensures { result.now ≡ cell k (drop self.entry.at self.entry.text.now) }
    {
        cell_from(self.text, self.at, k)
    }
}

// Reads the line at a cursor, which has one field more than commas: the cursor behind its LF.
pub fn line_at(s: &[u8], cursor: Cursor, commas: usize) -> Option<Cursor>
    ensures { result ≡ line_from commas cursor.at (drop cursor.at s.now) }
{
    LineReader {
        text: s,
        at: cursor.at,
    }
    .read_line(commas)
}

// Gives field number k of the line at a cursor, counted from 0: the part of the text itself.
pub fn cell_at(s: &[u8], line: Cursor, k: usize) -> &[u8]
    ensures { result.now ≡ cell k (drop line.at s.now) }
{
    LineReader {
        text: s,
        at: line.at,
    }
    .read_cell(k)
}

// Says whether field number k of the line at a cursor is empty.
pub fn cell_is_empty(s: &[u8], line: Cursor, k: usize) -> bool
    ensures { result ≡ is_empty (cell k (drop line.at s.now)) }
{
    cell_at(s, line, k).is_empty()
}
