// Price sources: where the price of a location in a market comes from.
#![tactic(auto)]

mod faults;
mod group;
pub mod groups;
pub mod layer;
pub mod member;
pub mod price;
mod reserved;
pub mod row;
mod rows;
pub mod single;
pub mod source;
mod sums;
pub mod table;
