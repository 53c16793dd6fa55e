// The calls that move the manager's state and change nothing else: Revert, Activate, Rollback and Finish.
#![tactic(auto)]

pub mod activate;
pub mod finish;
mod moves;
pub mod revert;
pub mod rollback;
