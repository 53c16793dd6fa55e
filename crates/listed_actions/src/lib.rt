// Whether the actions of a session's list pass the refusals 11 to 15 and 21 in turn, decided on the beginning table alone: each cluster is
// touched once, so nothing is staged and only the number of staged clusters is kept.
#![tactic(auto)]

pub mod columns;
pub mod in_turn;
