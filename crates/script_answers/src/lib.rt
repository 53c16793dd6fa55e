// The answers of the program `replay` as text: a line each, put into a lent buffer.
#![tactic(auto)]

pub mod answer;
pub mod manager_state;
pub mod named;
