// Members of a group of locations.
ghost use Rattle.std.specs.Prelude.{◌≡◌, ◌≤◌, true, length, not, position};
ghost use Rattle.prices.specs.Members.{weight_in_range, weights_in_range};

use crate::faults::price_fault;
use arrayvec::ArrayVec;
use measures::code::LocationCode;
use measures::fault::{Cause, Fault};

// A group has at most eight members.
const MOST_MEMBERS: usize = 8;

// A location in a group, with its weight.
#[derive(Clone, Copy, PartialEq, Eq, Default, Debug)]
pub struct Member {
    pub code: LocationCode,
    pub weight: i64,
}

impl Member {
    // Whether the weight is from 1 to 1,000.
    pub fn is_in_range(&self) -> bool
        ensures { result ≡ weight_in_range self.now }
    {
        1 <= self.weight && self.weight <= 1_000
    }
}

// One to eight members, each with a weight in range. They stand in the value itself, so that forming a group never wants
// memory.
#[derive(Drop)]
pub(crate) struct Members {
    list: ArrayVec<Member, MOST_MEMBERS>,
    ghost some: { 1 ≤ length list.items },
    ghost few: { length list.items ≤ 8 },
    ghost weighed: { weights_in_range list.items ≡ true },
}

// The index of the first member whose weight is out of range.
fn first_out_of_range(members: &[Member]) -> Option<usize>
    ensures { result ≡ position (λ x. not (weight_in_range x)) members.now }
{
    members.iter().position(|member| !member.is_in_range())
}

impl Members {
    ghost use Rattle.std.specs.Prelude.{◌≡◌, Some, None, Ok, Err};
    ghost use Rattle.prices.specs.Members.{members_refusal};

    // These members; refused where there are none or more than eight, or at the first whose weight is out of range.
    #[tactic(auto, using(crate::proofs::Failing::none_fails))]
    pub(crate) fn new(members: &[Member]) -> Result<Members, Fault>
        ensures { elim result [
          | Ok accepted ↦ (members_refusal members.now ≡ None) × (accepted.list.items ≡ members.now)
          | Err f ↦ members_refusal members.now ≡ Some f
        ] }
    {
        let other_count = price_fault(Cause::GroupOutOfRange, None);
        let list = ArrayVec::try_from(members).map_err(|_| other_count)?;
        if list.is_empty() {
            return Err(other_count);
        }
        if let Some(i) = first_out_of_range(members) {
            return Err(price_fault(Cause::GroupOutOfRange, Some(i + 1)));
        }
        Ok(Members { list })
    }

    pub(crate) fn as_slice(&self) -> &[Member]
        ensures { result.now ≡ self.now.list.items }
    {
        self.list.as_slice()
    }
}
