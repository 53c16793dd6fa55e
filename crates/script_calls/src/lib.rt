// The lines of the program `replay` that change its state or its store: which call each makes, with which bytes, and what is kept then.
#![tactic(auto)]

mod call;
pub mod kept;
pub mod lent;
mod load_list;
mod old;
pub mod play;
mod poke;
