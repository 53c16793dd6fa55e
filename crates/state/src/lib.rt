// The manager's state as a struct by value, in parts that change together; its limits, who may call what, and what a call answers.
#![tactic(auto)]

pub mod answer;
pub mod limits;
pub mod package;
pub mod permissions;
pub mod phase;
pub mod session;
pub mod state;
pub mod transfers;
pub mod work;
