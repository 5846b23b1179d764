// Prices: whole cents per MWh, in three components.
ghost use Rattle.std.specs.Prelude.{◌≡◌, true};
ghost use Rattle.prices.specs.Range.{components_in_range};

use crate::row::Components;

// The market that a price belongs to.
#[derive(Clone, Copy, PartialEq, Eq, Debug)]
pub enum Market {
    DayAhead,
    RealTime,
}

// The price of a location in a market, whose components are in range.
#[derive(Clone, Copy, PartialEq, Eq, Debug)]
pub struct Price {
    components: Components,
    ghost in_range: { components_in_range components ≡ true },
}

impl Price {
    ghost use Rattle.std.specs.Prelude.{◌≡◌};
    ghost use Rattle.prices.specs.Priced.{price_of};

    // The price with these components, where they are in range.
    pub fn new(components: Components) -> Option<Price>
        ensures { result ≡ price_of components }
    {
        if components.are_in_range() {
            Some(Price { components })
        } else {
            None
        }
    }

    pub fn energy(&self) -> i64
        ensures { result ≡ self.now.components.energy }
    {
        self.components.energy
    }

    pub fn congestion(&self) -> i64
        ensures { result ≡ self.now.components.congestion }
    {
        self.components.congestion
    }

    pub fn loss(&self) -> i64
        ensures { result ≡ self.now.components.loss }
    {
        self.components.loss
    }
}
