// A layer of groups over any source.
ghost use Rattle.std.specs.Prelude.{◌≡◌, true, false, [], Some, None, Ok, Err, not, position, refl};
ghost use Rattle.std.proofs.Common.{sym, ◌∙◌, rules};
ghost use Rattle.measures.specs.declared.code.LocationCode.{LocationCode};
ghost use Rattle.prices.specs.Layers.{form_refusal, FormedLast, groups_of, has_price, laid_over, layer_quote};
ghost use Rattle.prices.specs.Means.{all_priced, group_components, group_price};
ghost use Rattle.prices.specs.Totals.{AreSums};
ghost use Rattle.prices.specs.Quotes.{AddsPrice};
ghost use Rattle.prices.specs.declared.price.Market.{Market};
ghost use Rattle.measures.specs.Codes.{well_formed};
ghost use Rattle.prices.specs.Guarded.{guard_both, guarded};
ghost use Rattle.prices.specs.Layered.{laid_both, laid_below};

use crate::faults::price_fault;
use crate::group::Group;
use crate::groups::GroupTable;
use crate::member::{Member, Members};
use crate::price::{Market, Price};
use crate::source::PriceSource;
use crate::sums::Sums;
use measures::code::LocationCode;
use measures::fault::{Cause, Fault};

// Groups over the source below. A group's code has the energy component of its members and the weighted means of their
// congestion and loss, to the nearest whole cent, halves away from zero. They are worked out from below at each question,
// and there is none where a member has no price. Every other code has what is said below. A layer is a source itself.
#[derive(Drop)]
pub struct GroupLayer<S> {
    below: S,
    groups: GroupTable,
}

// The sums over all members, or none where one has no price below.
fn sums_over<S: PriceSource>(below: &S, members: &Members, market: Market) -> Option<Sums>
    ensures { elim result [
      | Some sums ↦ (all_priced (S.quote below.now) market members.now.list.items ≡ true) × AreSums (S.quote below.now) market members.now.list.items sums
      | None ↦ all_priced (S.quote below.now) market members.now.list.items ≡ false
    ] }
{
    let mut sums = Sums::new();
    for member in members.as_slice() {
        let price = below.price(&member.code, market)?;
        sums = sums.with(member, &price);
    }
    Some(sums)
}

// The price of a group with these members, or none where one has no price below.
fn mean_price<S: PriceSource>(below: &S, members: &Members, market: Market) -> Option<Price>
    ensures { result ≡ group_price (S.quote below.now) market members.now.list.items }
{
    let sums = sums_over(below, members, market)?;
    let first = below.price(&members.as_slice()[0].code, market)?;
    Price::new(sums.components(first.energy()))
}

// The index of the first member with no price below.
fn first_without_price<S: PriceSource>(below: &S, members: &[Member]) -> Option<usize>
    ensures { result ≡ position (λ x. not (has_price (S.quote below.now) x)) members.now }
{
    members.iter().position(|member| below.price(&member.code, Market::DayAhead).is_none())
}

impl<S: PriceSource> GroupLayer<S> {
    // What the groups in turn say of a code, over what is said below.
    fn look_up(&self, code: &LocationCode, market: Market) -> Option<Price>
        ensures { result ≡ laid_over (S.quote self.now.below) code.now market (S.quote self.now.below code.now market) (groups_of self.now.groups) }
    {
        let below = &self.below;
        self.groups
            .as_slice()
            .iter()
            .fold(below.price(code, market), |said, group| {
                if group.code == *code {
                    mean_price(below, &group.members, market)
                } else {
                    said
                }
            })
    }

    // The same, where the code is well-formed.
    fn quote(&self, code: &LocationCode, market: Market) -> Option<Price>
        ensures { result ≡ layer_quote (S.quote self.now.below) (groups_of self.now.groups) code.now market }
    {
        // One line in each source: a function of all that takes the rest as a closure is no plainer.
        if !code.is_well_formed() {
            return None;
        }
        self.look_up(code, market)
    }

    // The members of a group that may be formed; refused for the first cause that applies.
    fn accept(&self, code: &LocationCode, members: &[Member]) -> Result<Members, Fault>
        ensures { elim result [
          | Ok accepted ↦ (form_refusal (S.quote self.now.below) (groups_of self.now.groups) code.now members.now ≡ None) × (accepted.list.items ≡ members.now)
          | Err f ↦ form_refusal (S.quote self.now.below) (groups_of self.now.groups) code.now members.now ≡ Some f
        ] }
    {
        if !code.is_well_formed() {
            return Err(price_fault(Cause::MalformedCode, None));
        }
        if self.quote(code, Market::DayAhead).is_some() {
            return Err(price_fault(Cause::PricedAlready, None));
        }
        let accepted = Members::new(members)?;
        if let Some(i) = first_without_price(&self.below, members) {
            return Err(price_fault(Cause::MemberWithoutPrice, Some(i + 1)));
        }
        if !self.groups.has_room() {
            return Err(price_fault(Cause::SourceFull, None));
        }
        Ok(accepted)
    }

    // The groups of the table over the source. With none yet, every code has what is said below.
    pub fn over(below: S, groups: GroupTable) -> GroupLayer<S>
        ensures parts { (result.below ≡ below) × (result.groups ≡ groups) }
        ensures says_the_same { groups_of groups ≡ [] → (c : LocationCode) (m : Market) → layer_quote (S.quote result.below) (groups_of result.groups) c m ≡ S.quote below c m }
    {
        GroupLayer { below, groups }
    }

    // One group more, or the first cause that applies, and then nothing changes: a malformed code; a code that has a
    // price in this layer already; a count of members outside 1 to 8, or the first weight outside 1 to 1,000; the first
    // member with no price below; a full layer. An accepted group gives its code, in each market, the energy component
    // of its first member and the weighted means of its members' congestion and loss, and no other code another price.
    pub fn form(&mut self, code: LocationCode, members: &[Member]) -> Result<(), Fault>
        ensures { elim result [
          | Ok _ ↦ (form_refusal (S.quote self.old.below) (groups_of self.old.groups) code members.now ≡ None)
              × FormedLast (groups_of self.old.groups) (groups_of self.new.groups) code members.now
              × (self.new.below ≡ self.old.below)
              × AddsPrice (layer_quote (S.quote self.old.below) (groups_of self.old.groups)) (layer_quote (S.quote self.new.below) (groups_of self.new.groups)) code (group_components (S.quote self.old.below) members.now)
          | Err f ↦ (form_refusal (S.quote self.old.below) (groups_of self.old.groups) code members.now ≡ Some f) × (self.new ≡ self.old)
        ] }
    {
        let members = self.accept(&code, members)?;
        self.groups.push(Group { code, members });
        Ok(())
    }
}

impl<S: PriceSource> PriceSource for GroupLayer<S> {
    ghost quote = { λ t. layer_quote (S.PriceSource.quote t.below) (groups_of t.groups) };

    ghost malformed = { Prim.search rules };

    ghost both = { λ s c.
        let q = S.PriceSource.quote s.below in
        guard_both (well_formed c) _ _ (laid_both q (S.PriceSource.both s.below) c _ _ (groups_of s.groups) (S.PriceSource.both s.below c)) };

    ghost alike = { λ s c d m p q e f.
        let below = S.PriceSource.quote s.below in
        let x = laid_below below c m p (below c m) (groups_of s.groups) (λ k. record { at = c; there = p; said = k; same = refl }) (guarded (well_formed c) _ p e) in
        let y = laid_below below d m q (below d m) (groups_of s.groups) (λ k. record { at = d; there = q; said = k; same = refl }) (guarded (well_formed d) _ q f) in
        x.same ∙ (S.PriceSource.alike s.below x.at y.at m x.there y.there x.said y.said ∙ sym y.same) };

    fn price(&self, code: &LocationCode, market: Market) -> Option<Price> {
        self.quote(code, market)
    }
}
