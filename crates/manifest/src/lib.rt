// The text of a package: its names line, value lines and empty line, and where its payload lies.
#![tactic(auto)]

mod lines;
pub mod package;
