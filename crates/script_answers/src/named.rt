// Lines with numbers.
ghost use Rattle.std.specs.Prelude.{◌+◌, ◌≤◌, ◌<◌, [], ◌∷◌, length};
ghost use Rattle.io.specs.Counts.{IsPrefixLen};
ghost use Rattle.text.specs.Put.{Put};
ghost use Rattle.script_answers.specs.Answers.{named_line, ended_number, record_line, wave_line, number_digits_most, record_most, wave_most};

use text::write::{put_bytes, put_number};

// Puts a line at the start of a buffer. Precondition: it fits; its callers have a buffer with room for the longest answer.
pub fn put_line(buf: &mut [u8], text: &[u8]) -> usize
    requires { length text.now ≤ length buf.old }
    ensures line { Put buf.old 0 text.now result buf.new }
    ensures inside { IsPrefixLen result buf.new }
{
    put_bytes(buf, 0, text)
}

// Puts a number and the byte that ends it. Precondition: there is room for every number; its callers require such room.
fn put_ended(buf: &mut [u8], at: usize, n: u32, end: u8) -> usize
    requires { at + (number_digits_most + 1) ≤ length buf.old }
    ensures number { Put buf.old at (ended_number n end) result buf.new }
    ensures short { result ≤ at + (number_digits_most + 1) }
{
    let behind = put_number(buf, at, n);
    put_byte(buf, behind, end)
}

// Puts one byte. Precondition: there is room; `put_ended` has it.
fn put_byte(buf: &mut [u8], at: usize, b: u8) -> usize
    requires { at < length buf.old }
    ensures { Put buf.old at (b ∷ []) result buf.new }
{
    buf[at] = b;
    at + 1
}

// Puts a name, a number and LF. Precondition: there is room for the name and every number; its callers have such buffers.
pub fn put_named(buf: &mut [u8], at: usize, name: &[u8], n: u32) -> usize
    requires { at + length name.now + (number_digits_most + 1) ≤ length buf.old }
    ensures line { Put buf.old at (named_line name.now n) result buf.new }
    ensures inside { IsPrefixLen result buf.new }
{
    let behind_name = put_bytes(buf, at, name);
    put_ended(buf, behind_name, n, b'\n')
}

// Puts a record of Packages at the start of a buffer. Precondition: the buffer has room for every record; `replay` lends such a buffer.
pub fn put_record(buf: &mut [u8], id: u32, size: u32, received: u32, state: u32) -> usize
    requires { record_most ≤ length buf.old }
    ensures line { Put buf.old 0 (record_line id size received state) result buf.new }
    ensures inside { IsPrefixLen result buf.new }
{
    let behind_id = put_ended(buf, 0, id, b',');
    let behind_size = put_ended(buf, behind_id, size, b',');
    let behind_received = put_ended(buf, behind_size, received, b',');
    put_ended(buf, behind_received, state, b'\n')
}

// Puts an entry of the start waves at the start of a buffer. Precondition: the buffer has room for every entry; `replay` lends such a
// buffer.
pub fn put_wave(buf: &mut [u8], part: u32, wave: u32) -> usize
    requires { wave_most ≤ length buf.old }
    ensures line { Put buf.old 0 (wave_line part wave) result buf.new }
    ensures inside { IsPrefixLen result buf.new }
{
    let behind_part = put_ended(buf, 0, part, b',');
    put_ended(buf, behind_part, wave, b'\n')
}
