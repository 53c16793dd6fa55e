// Versions compared, clusters, and tables of clusters.
#![tactic(auto)]

pub mod cluster;
pub mod columns;
pub mod needs;
pub mod table;
pub mod version;
pub mod within;
