// A sharing rule divides a pool of cents by weights.
ghost use Rattle.std.specs.Prelude.{◌≡◌, ℕ, ◌+◌, ◌*◌, ◌/◌, ◌%◌, ◌^◌, ◌<◌, ◌≤◌, true, false, cond, ◌&&◌, ◌||◌, ◌==◌, nat_le, nat_lt, List, length, ℤ, sum, slice_index, unsigned_abs, MatchResult};
ghost use Rattle.std.specs.Int.{is_negative};
ghost use Rattle.std.specs.List.{position};
ghost use Rattle.measures.specs.Faults.{fault};
ghost use Rattle.measures.specs.declared.fault.Cause.TheVariants.{SharingLimits};
ghost use Rattle.measures.specs.declared.fault.Layer.TheVariants.{Share};
ghost use Rattle.rules.specs.declared.sharing.TheConstants.{MOST_WEIGHTS, LARGEST_SUM, LARGEST_PRODUCT};
ghost use Rattle.rules.specs.Sharing.{Fair, Shared, Checked, shareable, sharing_fault, sizes, first_negative, remainders, left_over, rank_in, amounts, largest_remainder, running};
ghost use Rattle.measures.specs.Signs.{signed};
ghost use Rattle.rules.specs.LargestParts.{largest_fair};
ghost use Rattle.rules.specs.RunningParts.{running_fair};

use crate::sign::with_sign;
use arrayvec::ArrayVec;
use measures::amounts::Cents;
use measures::fault::{Cause, Fault, Layer};

pub trait Sharing {
    // The shares of a pool of cents by a list of weights.
    ghost shares: { Self → ℤ → List ℤ → List ℤ };

    // Writes the shares to the list handed over, or refuses and leaves it as it was. Pool and weights are two arguments, as
    // callers have them: each call would make a struct of them.
    fn share(&self, pool: Cents, weights: &[i64], to: &mut [Cents]) -> Result<(), Fault>
        ensures { Shared (shares self.now) pool.0 weights.now to.old to.new result };

    // As many shares as weights; they add up to the pool; each lies less than a cent from its exact part.
    ghost fair: { (rule : Self) (pool : ℤ) (weights : List ℤ) → shareable pool weights (length weights) ≡ true → Fair pool weights (shares rule pool weights) };
}

// The most weights that a pool is shared by.
pub const MOST_WEIGHTS: usize = 64;

// The largest sum of the weights.
const LARGEST_SUM: u128 = 2_000_000_000;

// The largest product of the size of the pool and the sum of the weights.
const LARGEST_PRODUCT: u128 = 9_000_000_000_000_000_000;

// The index of the first weight below 0.
fn negative_index(weights: &[i64]) -> Option<usize>
    ensures { result ≡ position is_negative weights.now }
{
    weights.iter().position(|weight| weight.is_negative())
}

// The place, counted from 1, of the first weight below 0.
fn first_negative(weights: &[i64]) -> Option<usize>
    ensures { result ≡ first_negative weights.now }
{
    negative_index(weights).map(|i| i + 1)
}

// The sum of the sizes of the weights, which fits for a list of any length.
fn total_weight(weights: &[i64]) -> u128
    ensures { result ≡ sum (sizes weights.now) }
{
    weights
        .iter()
        .map(|weight| u128::from(weight.unsigned_abs()))
        .sum()
}

// The refusal of a pool and weights, with the place of the weight at fault.
fn refusal(place: Option<usize>) -> Fault
    ensures { result ≡ fault SharingLimits Share place }
{
    Fault::new(Cause::SharingLimits, Layer::Share, place)
}

// Whether there are 1 to 64 weights, and as many places to write to.
fn is_counted(weights: usize, places: usize) -> bool
    ensures { result ≡ (places == weights && (nat_le 1 places && nat_le places MOST_WEIGHTS)) }
{
    places == weights && 1 <= places && places <= MOST_WEIGHTS
}

// Whether the sum of the weights, and its product with the size of the pool, keep to the limits.
fn is_within_limits(size: u64, total: u128) -> bool
    ensures { result ≡ (nat_le 1 total && (nat_le total LARGEST_SUM && nat_le (size * total) LARGEST_PRODUCT)) }
{
    1 <= total && total <= LARGEST_SUM && u128::from(size) * total <= LARGEST_PRODUCT
}

// The sum of the weights, where the pool can be shared by them over so many places; else the refusal.
pub fn check_shareable(pool: Cents, weights: &[i64], places: usize) -> Result<u64, Fault>
    ensures { Checked pool.0 weights.now places result }
{
    if !is_counted(weights.len(), places) {
        return Err(refusal(None));
    }
    if let Some(place) = first_negative(weights) {
        return Err(refusal(Some(place)));
    }
    let total = total_weight(weights);
    if !is_within_limits(pool.0.unsigned_abs(), total) {
        return Err(refusal(None));
    }
    Ok(total as u64)
}

// Whether the remainder `other` at `j` goes before `own` at `i`: it is larger, or equal and at the lower place.
fn goes_before(other: u64, j: usize, own: u64, i: usize) -> bool
    ensures { result ≡ (nat_lt own other || (own == other && nat_lt j i)) }
{
    own < other || own == other && j < i
}

// How many remainders go before that at `i`.
fn rank_of(rests: &[u64], i: usize) -> u64
    requires { i < length rests.now }
    ensures { result ≡ rank_in rests.now i }
{
    let own = rests[i];
    rests
        .iter()
        .enumerate()
        .filter(|(j, other)| goes_before(**other, *j, own, i))
        .count() as u64
}

// A cent of those left over, where fewer places go before this one than cents are left.
fn extra_cent(before: u64, left: u64) -> u64
    ensures { result ≡ cond (nat_lt before left) 1 0 }
{
    u64::from(before < left)
}

// A pool that can be shared: its cents, and the weights with their sum.
#[derive(Clone, Copy)]
struct Pool<'a> {
    cents: Cents,
    weights: &'a [i64],
    total: u64,
    ghost few: { length weights.now ≤ MOST_WEIGHTS },
    ghost sums: { total ≡ sum (sizes weights.now) },
    ghost positive: { 0 < total },
    ghost product: { unsigned_abs cents.0 * total ≤ LARGEST_PRODUCT },
}

impl<'a> Pool<'a> {
    // The pool, where it can be shared by the weights over so many places; else the refusal.
    fn new(cents: Cents, weights: &'a [i64], places: usize) -> Result<Pool<'a>, Fault>
        ensures { MatchResult result (λ p. (shareable cents.0 weights.now places ≡ true) × (p.cents ≡ cents) × (p.weights.now ≡ weights.now)) (λ f. (shareable cents.0 weights.now places ≡ false) × (f ≡ sharing_fault weights.now places)) }
    {
        let total = check_shareable(cents, weights, places)?;
        Ok(Pool {
            cents,
            weights,
            total,
        })
    }

    // The whole cents that fall to a part of the weights.
    fn whole_cents(&self, part: u64) -> u64
        requires { part ≤ self.now.total }
        ensures value { result ≡ unsigned_abs self.now.cents.0 * part / sum (sizes self.now.weights.now) }
        ensures fits { result ≤ LARGEST_PRODUCT }
    {
        self.cents.0.unsigned_abs() * part / self.total
    }

    // What the whole cents leave of the product.
    fn remainder(&self, part: u64) -> u64
        requires { part ≤ self.now.total }
        ensures { result ≡ unsigned_abs self.now.cents.0 * part % sum (sizes self.now.weights.now) }
    {
        self.cents.0.unsigned_abs() * part % self.total
    }

    // A share of this size, with the sign of the pool.
    fn share(&self, size: u64) -> Cents
        requires { size < 2 ^ 63 }
        ensures { result.0 ≡ signed self.now.cents.0 size }
    {
        Cents(with_sign(self.cents.0, size))
    }

    // The remainders, one for each weight.
    fn remainders(&self) -> ArrayVec<u64, MOST_WEIGHTS>
        ensures { result.items ≡ remainders (unsigned_abs self.now.cents.0) (sizes self.now.weights.now) }
    {
        let mut rests = ArrayVec::new();
        for weight in self.weights {
            rests.push(self.remainder(weight.unsigned_abs()));
        }
        rests
    }

    // The cents that the whole parts leave: what the remainders come to together.
    fn left_over(&self, rests: &[u64]) -> u64
        requires { rests.now ≡ remainders (unsigned_abs self.now.cents.0) (sizes self.now.weights.now) }
        ensures { result ≡ left_over (unsigned_abs self.now.cents.0) (sizes self.now.weights.now) }
    {
        rests.iter().sum::<u64>() / self.total
    }

    // Writes the whole parts, and a cent more where fewer places go before one than cents are left.
    fn write_largest_remainder(&self, to: &mut [Cents])
        requires { length to.old ≡ length self.now.weights.now }
        ensures { amounts to.new ≡ largest_remainder self.now.cents.0 self.now.weights.now }
    {
        let rests = self.remainders();
        let left = self.left_over(&rests);
        for (i, weight) in self.weights.iter().enumerate() {
            let extra = extra_cent(rank_of(&rests, i), left);
            to[i] = self.share(self.whole_cents(weight.unsigned_abs()) + extra);
        }
    }

    // Writes what the weights up to each place have reached, less what those before it had.
    fn write_running(&self, to: &mut [Cents])
        requires { length to.old ≡ length self.now.weights.now }
        ensures { amounts to.new ≡ running self.now.cents.0 self.now.weights.now }
    {
        let mut so_far = 0;
        let mut given = 0;
        for (i, weight) in self.weights.iter().enumerate() {
            so_far += weight.unsigned_abs();
            let reached = self.whole_cents(so_far);
            to[i] = self.share(reached - given);
            given = reached;
        }
    }
}

// The whole parts, and the cents left over one each to the largest remainders, the lower place first in a tie.
#[derive(Clone, Copy)]
pub struct LargestRemainder;

impl Sharing for LargestRemainder {
    ghost shares = { λ _. largest_remainder };

    ghost fair = { λ r pool ws ok. largest_fair pool ws ok };

    fn share(&self, pool: Cents, weights: &[i64], to: &mut [Cents]) -> Result<(), Fault> {
        let pool = Pool::new(pool, weights, to.len())?;
        pool.write_largest_remainder(to);
        Ok(())
    }
}

// Each place is given what the weights up to it have reached, less what those before it had.
#[derive(Clone, Copy)]
pub struct Running;

impl Sharing for Running {
    ghost shares = { λ _. running };

    ghost fair = { λ r pool ws ok. running_fair pool ws ok };

    fn share(&self, pool: Cents, weights: &[i64], to: &mut [Cents]) -> Result<(), Fault> {
        let pool = Pool::new(pool, weights, to.len())?;
        pool.write_running(to);
        Ok(())
    }
}
