// What is posted to an hour, the phases that an hour passes through, and what it is opened with.
#![tactic(auto)]

pub mod bilateral;
pub mod opening;
pub mod phase;
pub mod posting;
pub mod record;
