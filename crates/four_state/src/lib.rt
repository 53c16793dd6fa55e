// The old four-state calls: the interface of source document 002 as a layer above the twelve calls.
#![tactic(auto)]

pub mod activate;
pub mod answer;
pub mod call;
pub mod cancel;
pub mod revert;
pub mod rollback;
pub mod status;
