// What every layer speaks in: measures, location codes, faults.
#![tactic(auto)]

pub mod amounts;
pub mod code;
pub mod fault;
