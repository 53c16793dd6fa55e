// Prints to standard output. Each function returns the error of a write that fails.
use crate::case::field;
use std::io;

pub fn bytes(rt: &HostRuntime, s: &[u8]) -> io::Result<()> {
    rt.write_all(s)
}

pub fn byte(rt: &HostRuntime, b: u8) -> io::Result<()> {
    rt.write_all(&[b])
}

pub fn number(rt: &HostRuntime, n: u32) -> io::Result<()> {
    rt.print(n)
}

pub fn count(rt: &HostRuntime, n: usize) -> io::Result<()> {
    rt.print(n)
}

// Prints how many bytes there are.
pub fn length(rt: &HostRuntime, n: usize) -> io::Result<()> {
    byte(rt, b' ')?;
    count(rt, n)?;
    bytes(rt, b" bytes")
}

// Prints a sentence with the fields of a case behind the first, one for each `%`.
pub fn with_fields(rt: &HostRuntime, sentence: &[u8], case: &[u8]) -> io::Result<()> {
    let mut k = 1;
    for b in sentence {
        if *b == b'%' {
            bytes(rt, field(case, k))?;
            k += 1;
        } else {
            byte(rt, *b)?;
        }
    }
    Ok(())
}

// Here and below: prints an answer that ends its line.
pub fn value(rt: &HostRuntime, n: u32) -> io::Result<()> {
    byte(rt, b' ')?;
    number(rt, n)?;
    byte(rt, b'\n')
}

pub fn yes_or_no(rt: &HostRuntime, b: bool) -> io::Result<()> {
    if b {
        bytes(rt, b" yes\n")
    } else {
        bytes(rt, b" no\n")
    }
}

pub fn ill_formed(rt: &HostRuntime) -> io::Result<()> {
    bytes(rt, b" ill-formed\n")
}

pub fn refused(rt: &HostRuntime, number: u32) -> io::Result<()> {
    bytes(rt, b" refused")?;
    value(rt, number)
}
