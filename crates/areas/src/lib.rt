// The packages by id and their areas in the store. "Their areas, each of the declared size, lie back to back in id order from byte 0."
#![tactic(auto)]

pub mod deletion;
pub mod lookup;
pub mod reading;
pub mod sizes;
