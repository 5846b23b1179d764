// Sums over the members of a group, and the nearest means.
ghost use Rattle.std.specs.Prelude.{◌≡◌, ◌+◌, ◌*◌, ◌<◌, ◌≤◌, ◌+ℤ◌, ◌*ℤ◌, true, pos, unsigned_abs};
ghost use Rattle.prices.specs.Means.{nearest_mean};
ghost use Rattle.prices.specs.Members.{weight_in_range};

use crate::member::Member;
use crate::price::Price;
use crate::row::Components;

// The sum of the weights, and the sums of weight × component, whose size the weights bound.
#[derive(Clone, Copy)]
pub(crate) struct Sums {
    weight: u64,
    congestion: i64,
    loss: i64,
    ghost few: { weight ≤ 8000 },
    ghost congestion_bound: { unsigned_abs congestion ≤ 100000 * weight },
    ghost loss_bound: { unsigned_abs loss ≤ 100000 * weight },
}

// A sum with one weighted component more.
fn with_component(sum: i64, component: i64, weight: i64) -> i64
    requires component { unsigned_abs component ≤ 100000 }
    requires weight { unsigned_abs weight ≤ 1000 }
    requires sum { unsigned_abs sum ≤ 800000000 }
    ensures { result ≡ sum +ℤ (component *ℤ weight) }
{
    sum + component * weight
}

// x / weight to the nearest whole number, halves away from zero.
fn nearest(x: i64, weight: u64) -> i64
    requires some { 0 < weight }
    requires few { weight ≤ 8000 }
    requires sum { unsigned_abs x ≤ 800000000 }
    ensures { result ≡ nearest_mean x weight }
{
    // The sign is put back here: a function of all crates could not ask that the size fits.
    let size = ((2 * x.unsigned_abs() + weight) / (2 * weight)) as i64;
    if x < 0 { -size } else { size }
}

impl Sums {
    // The sums over no members.
    pub(crate) fn new() -> Sums
        ensures weight { result.weight ≡ 0 }
        ensures congestion { result.congestion ≡ pos 0 }
        ensures loss { result.loss ≡ pos 0 }
    {
        Sums {
            weight: 0,
            congestion: 0,
            loss: 0,
        }
    }

    // The sums with one member more, which has this price.
    pub(crate) fn with(&self, member: &Member, price: &Price) -> Sums
        requires in_range { weight_in_range member.now ≡ true }
        requires few { self.now.weight + unsigned_abs member.now.weight ≤ 8000 }
        ensures weight { result.weight ≡ self.now.weight + unsigned_abs member.now.weight }
        ensures congestion { result.congestion ≡ self.now.congestion +ℤ (price.now.components.congestion *ℤ member.now.weight) }
        ensures loss { result.loss ≡ self.now.loss +ℤ (price.now.components.loss *ℤ member.now.weight) }
    {
        Sums {
            weight: self.weight + member.weight.unsigned_abs(),
            congestion: with_component(self.congestion, price.congestion(), member.weight),
            loss: with_component(self.loss, price.loss(), member.weight),
        }
    }

    // The components of a group's price: this energy, and the weighted means of the other two.
    pub(crate) fn components(&self, energy: i64) -> Components
        requires { 0 < self.now.weight }
        ensures energy { result.energy ≡ energy }
        ensures congestion { result.congestion ≡ nearest_mean self.now.congestion self.now.weight }
        ensures loss { result.loss ≡ nearest_mean self.now.loss self.now.weight }
    {
        Components {
            energy,
            congestion: nearest(self.congestion, self.weight),
            loss: nearest(self.loss, self.weight),
        }
    }
}
