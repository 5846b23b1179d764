// A group of locations that has a price of its own.
use crate::member::Members;
use measures::code::LocationCode;

// Its code and its members.
#[derive(Drop)]
pub struct Group {
    pub code: LocationCode,
    pub(crate) members: Members,
}
