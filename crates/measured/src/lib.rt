// What bench/run measures, for the program in C that drives it: each export is over numbers and slices.
#![tactic(auto)]

pub mod calls;
pub mod parts;
