// A table written as a cluster list into a lent buffer, and its length beforehand.
#![tactic(auto)]

pub mod length;
mod put;
pub mod write;
