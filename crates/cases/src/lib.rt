// What the programs of examples share: cases as data, values that their fields say, reading and printing.
#![tactic(auto)]

pub mod case;
pub mod input;
pub mod show;
pub mod values;
