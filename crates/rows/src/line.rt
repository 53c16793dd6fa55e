// Lines: fields parted by commas, ended by LF.
ghost use Rattle.std.specs.Prelude.{◌≡◌, drop};
ghost use Rattle.rows.specs.Line.{line_from};

use text::cursor::Cursor;

// Reads the line at a position, which has one field more than commas: the cursor behind its LF. It stops at the first comma too many, so
// that a long text that is no such line is not read to its end.
pub fn line_from(s: &[u8], at: usize, commas: usize) -> Option<Cursor>
    ensures { result ≡ line_from commas at (drop at s.now) }
{
    let mut left = commas;
    for i in at..s.len() {
        match s[i] {
            b'\n' => return (left == 0).then_some(Cursor { at: i + 1 }),
            b',' => left = left.checked_sub(1)?,
            _ => {}
        }
    }
    None
}
