// A list of calls in numbers: rows of six words one behind the other.
ghost use Rattle.std.specs.Prelude.{◌≡◌};
ghost use Rattle.call_rows.specs.Rows.{decoded, is_given};

use crate::row::{Row, row_request};

// Returns true if the words are a list of calls with blocks in a byte string.
pub fn rows_well_formed(words: &[u32], bytes: &[u8]) -> bool
    ensures { result ≡ is_given (decoded words.now bytes.now) }
{
    let (rows, rest) = words.as_chunks::<6>();
    rest.is_empty()
        && rows
            .iter()
            .all(|row| row_request(Row::from(*row), bytes.len()).is_some())
}
