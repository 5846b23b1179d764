// Rows of a price table, as they are handed over.
ghost use Rattle.std.specs.Prelude.{◌≡◌};
ghost use Rattle.prices.specs.Range.{components_in_range, in_range};

use measures::code::LocationCode;

// The components of a price in whole cents per MWh, not yet held to their range.
#[derive(Clone, Copy, PartialEq, Eq, Debug)]
pub struct Components {
    pub energy: i64,
    pub congestion: i64,
    pub loss: i64,
}

// The components of one location in both markets. Two fields, which callers fill by name.
#[derive(Clone, Copy, PartialEq, Eq, Debug)]
pub struct PriceRow {
    pub code: LocationCode,
    pub day_ahead: Components,
    pub real_time: Components,
}

// Whether a component is from -100,000 to 100,000.
fn is_in_range(component: i64) -> bool
    ensures { result ≡ in_range component }
{
    -100_000 <= component && component <= 100_000
}

impl Components {
    // Whether all three are in range.
    pub(crate) fn are_in_range(&self) -> bool
        ensures { result ≡ components_in_range self.now }
    {
        is_in_range(self.energy) && is_in_range(self.congestion) && is_in_range(self.loss)
    }
}
