// What a participant used of the pool in a month, by which an expense is shared.
ghost use Rattle.std.specs.Prelude.{◌≡◌, true, false, ◌+ℤ◌, MatchOption};
ghost use Rattle.std.specs.List.{list_all};
ghost use Rattle.lines.specs.Figures.{figures_fit, ten_digits};

use measures::amounts::{Kilowatts, MegawattHours};

// Four figures of at most ten digits each, so that their sums fit.
#[derive(Clone, Copy)]
pub struct MonthUse {
    load: MegawattHours,
    generation: MegawattHours,
    peak_load: Kilowatts,
    peak_generation: Kilowatts,
    ghost figures_ok: { figures_fit load.0 generation.0 peak_load.0 peak_generation.0 ≡ true },
}

fn has_ten_digits(figure: i64) -> bool
    ensures { result ≡ ten_digits figure }
{
    figure.unsigned_abs() < 10_000_000_000
}

fn have_ten_digits(figures: &[i64]) -> bool
    ensures { result ≡ list_all ten_digits figures.now }
{
    figures.iter().all(|figure| has_ten_digits(*figure))
}

impl MonthUse {
    // The use with these figures, where each has at most ten digits.
    pub fn new(
        load: MegawattHours,
        generation: MegawattHours,
        peak_load: Kilowatts,
        peak_generation: Kilowatts,
    ) -> Option<MonthUse>
        ensures { MatchOption result (figures_fit load.0 generation.0 peak_load.0 peak_generation.0 ≡ false) (λ u. (u.load ≡ load) × (u.generation ≡ generation) × (u.peak_load ≡ peak_load) × (u.peak_generation ≡ peak_generation)) }
    {
        if have_ten_digits(&[load.0, generation.0, peak_load.0, peak_generation.0]) {
            Some(MonthUse {
                load,
                generation,
                peak_load,
                peak_generation,
            })
        } else {
            None
        }
    }

    // The month's load plus generation: the weight in line 21.
    pub fn volume(&self) -> MegawattHours
        ensures { result.0 ≡ self.now.load.0 +ℤ self.now.generation.0 }
    {
        self.load + self.generation
    }

    // The peak load plus peak generation: the weight in line 22.
    pub fn peak(&self) -> Kilowatts
        ensures { result.0 ≡ self.now.peak_load.0 +ℤ self.now.peak_generation.0 }
    {
        self.peak_load + self.peak_generation
    }
}
