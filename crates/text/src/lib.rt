// Fixed-column text: fields, right-justified, amounts in dollars, and lines.
#![tactic(auto)]

pub mod dollars;
pub mod fields;
pub mod lines;
