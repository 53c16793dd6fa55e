// Lines of fields: what the cluster list and the text of a package are both made of.
#![tactic(auto)]

pub mod columns;
mod field;
pub mod line;
pub mod list_columns;
pub mod reader;
