// The rules that a settlement run is put together from: rounding and sharing.
#![tactic(auto)]

pub mod rounding;
pub mod sharing;
mod sign;
