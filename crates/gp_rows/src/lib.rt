//! What programs of cases are made of: rows of files, their fields, answers to them, and reports.
//!
//! A program reads a file, cuts it into lines, and gives each line to a `Report` of that file. Where this hands out a row,
//! the program cuts it into fields, writes its `Answer` to all of them but the last one and has it judged by that one. `rows`
//! says how rows are written.
#![tactic(auto)]

mod answers;
mod fields;
mod report;
mod rows;
mod wrong;

pub use answers::Answer;
pub use fields::{field, fields_of, number, text_at};
pub use report::Report;
pub use rows::split_at;
pub use wrong::Wrong;
