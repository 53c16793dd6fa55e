// Bytes as two digits of `0-9a-f` each.
ghost use Rattle.std.specs.Prelude.{◌≡◌, true, ◌+◌, ◌*◌, ◌<◌, ◌≤◌, length};
ghost use Rattle.text.specs.Put.{Put};
ghost use Rattle.script_bytes.specs.Hex.{digit_value, digit_byte, is_digit, is_digits, digits_bytes, byte_digits, bytes_digits};

// Returns true if a byte is a digit.
#[tactic(auto, using(std::proofs::lemmas::Bool::Decides::nat_tests), unfolding(crate::specs::Hex::digit_value, crate::specs::Hex::is_digit))]
fn is_digit(b: u8) -> bool
    ensures { result ≡ is_digit b }
{
    matches!(b, b'0'..=b'9' | b'a'..=b'f')
}

// Returns true if a word is an even number of digits.
pub fn is_digits(word: &[u8]) -> bool
    ensures { result ≡ is_digits word.now }
{
    word.len() % 2 == 0 && word.iter().all(|b| is_digit(*b))
}

// Returns the value of a digit. Precondition: the byte is a digit; `digits_byte` requires it.
#[tactic(auto, using(std::proofs::lemmas::Bool::Decides::nat_tests), unfolding(crate::specs::Hex::digit_value))]
fn digit_value(b: u8) -> u8
    requires { digit_value b < 16 }
    ensures { result ≡ digit_value b }
{
    if b <= b'9' { b - 48 } else { b - 87 }
}

// Returns the byte of two digits. Precondition: both are digits; `put_digits_bytes` requires digits alone.
fn digits_byte(high: u8, low: u8) -> u8
    requires { (digit_value high < 16) × (digit_value low < 16) }
    ensures { result ≡ 16 * digit_value high + digit_value low }
{
    16 * digit_value(high) + digit_value(low)
}

// Puts the bytes that digits stand for. Precondition: the word is an even number of digits, which `put_block_bytes` has tested, and the
// bytes fit the buffer, which it requires.
pub fn put_digits_bytes(buf: &mut [u8], at: usize, word: &[u8]) -> usize
    requires { (is_digits word.now ≡ true) × (at + length (digits_bytes word.now) ≤ length buf.old) }
    ensures { Put buf.old at (digits_bytes word.now) result buf.new }
{
    let count = word.len() / 2;
    for i in 0..count {
        buf[at + i] = digits_byte(word[2 * i], word[2 * i + 1]);
    }
    at + count
}

// Returns the digit of a value. Precondition: the value is below 16; `put_byte_digits` gives such values.
#[tactic(auto, using(std::proofs::lemmas::Bool::Decides::nat_tests), unfolding(crate::specs::Hex::digit_byte))]
fn digit_byte(value: u8) -> u8
    requires { value < 16 }
    ensures { result ≡ digit_byte value }
{
    if value < 10 { 48 + value } else { 87 + value }
}

// Puts the two digits of a byte. Precondition: they fit the buffer; `put_bytes_digits` requires it.
fn put_byte_digits(buf: &mut [u8], at: usize, b: u8) -> usize
    requires { at + length (byte_digits b) ≤ length buf.old }
    ensures { Put buf.old at (byte_digits b) result buf.new }
{
    buf[at] = digit_byte(b / 16);
    buf[at + 1] = digit_byte(b % 16);
    at + 2
}

// Puts the digits of bytes. Precondition: they fit the buffer; `replay` puts a long answer in parts that fit.
pub fn put_bytes_digits(buf: &mut [u8], at: usize, part: &[u8]) -> usize
    requires { at + length (bytes_digits part.now) ≤ length buf.old }
    ensures { Put buf.old at (bytes_digits part.now) result buf.new }
{
    let mut next = at;
    for b in part {
        next = put_byte_digits(buf, next, *b);
    }
    next
}
