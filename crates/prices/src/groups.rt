// The groups of a layer.
use crate::group::Group;
use crate::reserved::Reserved;

// A layer holds at most eight groups.
pub(crate) const MOST_GROUPS: usize = 8;

// The groups in the order in which they were formed.
pub type GroupTable = Reserved<Group, MOST_GROUPS>;
