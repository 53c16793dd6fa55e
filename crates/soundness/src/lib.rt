// Whether a state is sound for a store of a length, decided part by part on any values of the fields.
#![tactic(auto)]

mod counts;
mod kept;
mod listed;
mod packages;
mod phases;
mod session;
pub mod sound;
