// Decimal numbers without leading zeros.
ghost use Rattle.std.specs.Prelude.{◌≡◌, ◌≤◌, ◌<◌, MatchOption, drop};
ghost use Rattle.text.specs.Number.{digit_of, number_goes_on, number_at, whole_number};

use crate::cursor::Cursor;

// Gives the value of a digit.
#[tactic(auto, unfolding(crate::specs::Number::digit_of))]
fn digit(b: u8) -> Option<u32>
    ensures { MatchOption result (digit_of b ≡ 10) (λ d. (d ≡ digit_of b) × (d < 10)) }
{
    match b {
        b'0'..=b'9' => Some(u32::from(b - b'0')),
        _ => None,
    }
}

// Reads on a number that has the value first so far, from a position on. The value is compared with most at every digit, so any length of
// digits is safe. Precondition: first is not above most; `number_at` has compared the first digit with it.
fn number_goes_on(s: &[u8], at: usize, first: u32, most: u32) -> Option<(u32, Cursor)>
    requires { first ≤ most }
    ensures { result ≡ number_goes_on most first at (drop at s.now) }
{
    let mut value = first;
    for i in at..s.len() {
        let Some(d) = digit(s[i]) else {
            return Some((value, Cursor { at: i }));
        };
        if value == 0 {
            return None;
        }
        let longer = u64::from(value) * 10 + u64::from(d);
        if u64::from(most) < longer {
            return None;
        }
        value = longer as u32;
    }
    Some((
        value,
        Cursor {
            at: at.max(s.len()),
        },
    ))
}

// Reads the number at a cursor, at most as large as most: its value, and the cursor behind it.
pub fn number_at(s: &[u8], cursor: Cursor, most: u32) -> Option<(u32, Cursor)>
    ensures { result ≡ number_at s.now cursor.at most }
{
    let first = digit(*s.get(cursor.at)?)?;
    if most < first {
        return None;
    }
    number_goes_on(s, cursor.at + 1, first, most)
}

// Reads a text that is one number and nothing else.
#[tactic(auto, unfolding(crate::specs::Number::whole_number))]
pub fn whole_number(s: &[u8], most: u32) -> Option<(u32, Cursor)>
    ensures { result ≡ whole_number most s.now }
{
    let (value, next) = number_at(s, Cursor { at: 0 }, most)?;
    if next.at < s.len() {
        return None;
    }
    Some((value, next))
}
