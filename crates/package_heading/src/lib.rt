// The first value line of a package: its action, cluster, payload count and sum.
#![tactic(auto)]

pub mod change;
pub mod heading;
