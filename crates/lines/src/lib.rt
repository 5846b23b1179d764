// Charge lines, shared lines, and the two lines of a month's expense.
#![tactic(auto)]

pub mod expense;
pub mod line;
pub mod month_use;
