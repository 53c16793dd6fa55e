// The lines of the program `replay`: gathered from the input, their words and numbers, and the place of a line's bytes.
#![tactic(auto)]

mod fixed;
pub mod gathered;
pub mod limits;
pub mod line;
mod numbered;
mod old;
pub mod place;
mod words;
