// Numbers as text.
use cases::case::field;
use cases::show;
use cases::values::number_of;
use std::io;
use text::number::whole_number;
use text::write::{number_length, put_number};

// Reads a number from a text, with the most that it may be, and prints it.
pub fn read(rt: &HostRuntime, case: &[u8]) -> io::Result<()> {
    let most = number_of(field(case, 2));
    match whole_number(field(case, 1), most) {
        Some((value, _)) => show::value(rt, value),
        None => show::ill_formed(rt),
    }
}

// Prints a number written in a buffer of dashes, which shows the bytes before and behind its digits.
fn show_written(rt: &HostRuntime, n: u32) -> io::Result<()> {
    let mut buffer = [b'-'; 12];
    put_number(&mut buffer, 1, n);
    show::bytes(rt, &buffer)
}

// Prints how many bytes a number takes, and the number written.
pub fn write(rt: &HostRuntime, case: &[u8]) -> io::Result<()> {
    let n = number_of(field(case, 1));
    show::length(rt, number_length(n))?;
    show::byte(rt, b':')?;
    show::byte(rt, b' ')?;
    show_written(rt, n)?;
    show::byte(rt, b'\n')
}
