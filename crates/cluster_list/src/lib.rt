// The cluster list: reads its text into a table, reads the fields that the text of a package has too, and gives the lengths of the longest
// lists.
#![tactic(auto)]

mod adding;
pub mod cells;
pub mod limits;
mod mark;
pub mod read;
mod value_line;
