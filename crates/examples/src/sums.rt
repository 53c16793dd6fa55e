// The sum of a payload.
use cases::case::field;
use cases::show;
use cases::values::number_of;
use checksum::{continue_sum, number, start};
use std::{array, io};

// Returns the sum of two parts, continued from the first to the second.
fn sum_of(first: &[u8], second: &[u8]) -> u32 {
    number(continue_sum(continue_sum(start(), first), second))
}

// Prints the sum of two parts.
pub fn sum(rt: &HostRuntime, case: &[u8]) -> io::Result<()> {
    show::value(rt, sum_of(field(case, 1), field(case, 2)))
}

// Returns each byte once, in order.
fn bytes_in_order() -> [u8; 256] {
    array::from_fn(|i| i as u8)
}

// Prints the sum of the bytes from a place on, then of those before it; `ill-formed` where there is no such place.
fn sum_around(rt: &HostRuntime, bytes: &[u8], from: usize) -> io::Result<()> {
    if bytes.len() < from {
        return show::ill_formed(rt);
    }
    show::value(rt, sum_of(&bytes[from..], &bytes[0..from]))
}

// Prints the sum of all 256 bytes in order, from the place that the case gives on, then of those before it.
pub fn sum_in_order(rt: &HostRuntime, case: &[u8]) -> io::Result<()> {
    let bytes = bytes_in_order();
    sum_around(rt, &bytes, number_of(field(case, 1)) as usize)
}
