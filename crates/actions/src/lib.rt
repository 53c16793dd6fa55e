// Actions on a table of clusters.
#![tactic(auto)]

pub mod action;
mod place;
pub mod refusals;
