// The text of a month's expense: its file is read and its bill is printed.
#![tactic(auto)]

pub mod bill;
pub mod file;
pub mod month;
pub mod refusal;
mod row;
