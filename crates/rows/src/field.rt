// Fields: the bytes up to a comma or LF.
ghost use Rattle.std.specs.Prelude.{position, ◌≡◌, ◌+◌, ◌≤◌, length, drop};
ghost use Rattle.rows.specs.Field.{ends_field, field, behind_field, cell, Start};

// Says whether a byte ends a field.
#[tactic(auto, unfolding(crate::specs::Field::ends_field))]
fn ends_field(b: u8) -> bool
    ensures { result ≡ ends_field b }
{
    matches!(b, b',' | b'\n')
}

// Finds the first byte of a text that ends a field.
fn first_end(s: &[u8]) -> Option<usize>
    ensures { result ≡ position ends_field s.now }
{
    s.iter().position(|b| ends_field(*b))
}

// Finds the first comma or LF from a position on, or the end. Precondition: the position is within the text; `cell_start` gives such a
// position, and `behind_field` requires one.
fn field_end(s: &[u8], from: usize) -> usize
    requires { from ≤ length s.now }
    ensures { result ≡ from + length (field (drop from s.now)) }
{
    match first_end(&s[from..]) {
        Some(length) => from + length,
        None => s.len(),
    }
}

// Gives the position behind the field at a position and behind the byte that ends it, or the end. Precondition: the position is within the
// text; `cell_start` begins with one and goes on with those that this function gives.
fn behind_field(s: &[u8], from: usize) -> usize
    requires { from ≤ length s.now }
    ensures { Start result (behind_field (drop from s.now)) s.now }
{
    let end = field_end(s, from);
    if end < s.len() { end + 1 } else { end }
}

// Finds where field number k from a position on begins, counted from 0 and past the ends of lines; the end where there is none.
fn cell_start(s: &[u8], at: usize, k: usize) -> usize
    ensures { (result ≤ length s.now) × (field (drop result s.now) ≡ cell k (drop at s.now)) }
{
    let mut from = at.min(s.len());
    for _ in 0..k {
        from = behind_field(s, from);
    }
    from
}

// Gives field number k of the line at a position, counted from 0: the part of the text itself.
pub fn cell_from(s: &[u8], at: usize, k: usize) -> &[u8]
    ensures { result.now ≡ cell k (drop at s.now) }
{
    let from = cell_start(s, at, k);
    &s[from..field_end(s, from)]
}
