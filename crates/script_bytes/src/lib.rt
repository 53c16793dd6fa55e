// The bytes of the program `replay`: `BYTES` of a line in three forms, and `HEX` of an answer.
#![tactic(auto)]

pub mod block;
pub mod form;
pub mod hex;
