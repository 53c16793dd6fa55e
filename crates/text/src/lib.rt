// Numbers and versions as text: readers over lent bytes and a cursor, writers into a lent buffer.
#![tactic(auto)]

pub mod cursor;
pub mod number;
pub mod version;
pub mod word;
pub mod write;
