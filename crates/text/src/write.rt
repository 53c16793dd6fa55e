// Writers: each puts the text of a value at a place of a lent buffer and gives the place behind it. Precondition of each: the text fits
// into the buffer from the place on; callers compare the whole length, known beforehand, with the buffer's, or lend a buffer that holds the
// longest text.
ghost use Rattle.std.specs.Prelude.{◌≡◌, ◌∷◌, ◌+◌, ◌≤◌, length};
ghost use Rattle.base.specs.Quoted.{dot};
ghost use Rattle.text.specs.Digits.{digits};
ghost use Rattle.text.specs.Version.{version_text};
ghost use Rattle.text.specs.Put.{Put};

use crate::version::Version;

// Puts a text as it is.
pub fn put_bytes(buf: &mut [u8], at: usize, text: &[u8]) -> usize
    requires { at + length text.now ≤ length buf.old }
    ensures { Put buf.old at text.now result buf.new }
{
    let end = at + text.len();
    buf[at..end].copy_from_slice(text);
    end
}

// Counts the digits of n.
#[tactic(auto, using(crate::proofs::DigitLaws::lengths))]
pub fn number_length(n: u32) -> usize
    ensures { result ≡ length (digits n) }
{
    let mut rest = n;
    let mut count: usize = 1;
    while 10 <= rest {
        rest /= 10;
        count += 1;
    }
    count
}

// Puts the digits of n, from the last to the first.
#[tactic(auto, using(crate::proofs::PutLaws::digits_put))]
pub fn put_number(buf: &mut [u8], at: usize, n: u32) -> usize
    requires { at + length (digits n) ≤ length buf.old }
    ensures { Put buf.old at (digits n) result buf.new }
{
    let end = at + number_length(n);
    let mut i = end;
    let mut rest = n;
    while 10 <= rest {
        i -= 1;
        buf[i] = 48 + (rest % 10) as u8;
        rest /= 10;
    }
    buf[at] = 48 + rest as u8;
    end
}

// Puts a dot and a number.
#[tactic(auto, using(crate::proofs::PutLaws::putting))]
fn put_dotted(buf: &mut [u8], at: usize, n: u32) -> usize
    requires { at + length (dot ∷ digits n) ≤ length buf.old }
    ensures { Put buf.old at (dot ∷ digits n) result buf.new }
{
    buf[at] = b'.';
    put_number(buf, at + 1, n)
}

// Counts the bytes of a version as text.
#[tactic(auto, using(crate::proofs::DigitLaws::few_digits), unfolding(crate::specs::Version::version_text))]
pub fn version_length(v: Version) -> usize
    ensures { result ≡ length (version_text v) }
{
    number_length(v.first)
        + number_length(v.second)
        + number_length(v.third)
        + number_length(v.fourth)
        + 3
}

// Puts the four parts, joined by dots.
#[tactic(auto, using(crate::proofs::PutLaws::putting), unfolding(crate::specs::Version::version_text))]
pub fn put_version(buf: &mut [u8], at: usize, v: Version) -> usize
    requires { at + length (version_text v) ≤ length buf.old }
    ensures { Put buf.old at (version_text v) result buf.new }
{
    let behind_first = put_number(buf, at, v.first);
    let behind_second = put_dotted(buf, behind_first, v.second);
    let behind_third = put_dotted(buf, behind_second, v.third);
    put_dotted(buf, behind_third, v.fourth)
}
