// Lists of calls and their answers in numbers and bytes.
#![tactic(auto)]

pub mod answer_words;
pub mod row;
pub mod row_list;
