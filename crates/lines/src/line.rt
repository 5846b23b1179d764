// A charge line has a number; a shared line has a pool and weights besides.
ghost use Rattle.std.specs.Prelude.{◌≡◌, ℕ, ◌<◌, ◌≤◌, List, map, length, ℤ, None, MatchResult};
ghost use Rattle.rules.specs.declared.sharing.TheConstants.{MOST_WEIGHTS};
ghost use Rattle.measures.specs.Faults.{fault, on_charge_line};
ghost use Rattle.measures.specs.declared.fault.Cause.TheVariants.{SharingLimits};
ghost use Rattle.measures.specs.declared.fault.Layer.TheVariants.{Share};
ghost use Rattle.lines.specs.Shared.{LineChecked, LineShared};

use arrayvec::ArrayVec;
use measures::amounts::{Cents, WeightUnit};
use measures::fault::{Cause, Fault, Layer};
use rules::sharing::{MOST_WEIGHTS, Sharing, check_shareable};

pub trait ChargeLine {
    const NUMBER: u8;

    // The line's number, for clauses in generic code, which cannot name the constant.
    ghost number: { ℕ };

    fn line_number() -> u8
        ensures { result ≡ number };
}

pub trait SharedLine: ChargeLine {
    // The unit in which the line's weights are counted.
    type Weight: WeightUnit;

    ghost pool: { Self → ℤ };

    ghost weights: { Self → List Self.Weight };

    fn pool(&self) -> Cents
        ensures { result.0 ≡ pool self.now };

    fn weights(&self) -> &[Self::Weight]
        ensures { result.now ≡ weights self.now };
}

// The refusal of a line with another number of weights than can be shared by.
pub fn wrong_count(number: u8) -> Fault
    ensures { result ≡ on_charge_line number (fault SharingLimits Share None) }
{
    Fault::new(Cause::SharingLimits, Layer::Share, None).on_charge_line(number)
}

// Refuses a line that has more weights than a pool is shared by. Apart from `units_of`, as a list that is answered in a
// result is moved once more.
fn check_count<L: SharedLine>(line: &L) -> Result<(), Fault>
    ensures { MatchResult result (λ _. length (L.SharedLine.weights line.now) ≤ MOST_WEIGHTS) (λ f. (MOST_WEIGHTS < length (L.SharedLine.weights line.now)) × (f ≡ on_charge_line L.ChargeLine.number (fault SharingLimits Share None))) }
{
    if line.weights().len() > MOST_WEIGHTS {
        return Err(wrong_count(L::line_number()));
    }
    Ok(())
}

// The numbers of units of the line's weights.
fn units_of<L: SharedLine>(line: &L) -> ArrayVec<i64, MOST_WEIGHTS>
    requires { length (L.SharedLine.weights line.now) ≤ MOST_WEIGHTS }
    ensures { result.items ≡ map L.Weight.WeightUnit.units (L.SharedLine.weights line.now) }
{
    // A loop, since by `extend` of a `map` the proof did not close.
    let weights = line.weights();
    let mut units = ArrayVec::new();
    for weight in weights {
        units.push(weight.units());
    }
    units
}

// Whether the line's pool can be shared by its weights over so many places; else the refusal.
pub fn check_line<L: SharedLine>(line: &L, places: usize) -> Result<(), Fault>
    ensures { LineChecked L.ChargeLine.number (L.SharedLine.pool line.now) (map L.Weight.WeightUnit.units (L.SharedLine.weights line.now)) places result }
{
    check_count(line)?;
    let units = units_of(line);
    let pool = line.pool();
    check_shareable(pool, &units, places).map_err(|fault| fault.on_charge_line(L::line_number()))?;
    Ok(())
}

// Shares the line's pool by its weights into the list handed over, or refuses and leaves it as it was.
pub fn share_line<L: SharedLine, H: Sharing>(
    line: &L,
    rule: &H,
    to: &mut [Cents],
) -> Result<(), Fault>
    ensures { LineShared (H.Sharing.shares rule.now) L.ChargeLine.number (L.SharedLine.pool line.now) (map L.Weight.WeightUnit.units (L.SharedLine.weights line.now)) to.old to.new result }
{
    check_count(line)?;
    let units = units_of(line);
    rule.share(line.pool(), &units, to)
        .map_err(|refusal| refusal.on_charge_line(L::line_number()))?;
    // What `map_err` answers is not handed on as it is: the proof of that did not close.
    Ok(())
}
