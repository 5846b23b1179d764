// One energy component per market for every location.
ghost use Rattle.std.specs.Prelude.{◌≡◌, true, false, ◌&&◌, Some, Ok, Err, refl};
ghost use Rattle.std.proofs.Common.{rules};
ghost use Rattle.measures.specs.declared.fault.Cause.TheVariants.{ComponentOutOfRange};
ghost use Rattle.prices.specs.Range.{in_range};
ghost use Rattle.prices.specs.Refusals.{price_fault};
ghost use Rattle.prices.specs.Singles.{energy_alone as alone, single_quote, SaysAlone, price_in};
ghost use Rattle.measures.specs.Codes.{well_formed};
ghost use Rattle.prices.specs.Guarded.{guard_both, guarded_alike};
ghost use Rattle.prices.specs.declared.price.Price.{Price};

use crate::faults::price_fault;
use crate::price::{Market, Price};
use crate::row::Components;
use crate::source::PriceSource;
use measures::code::LocationCode;
use measures::fault::{Cause, Fault};

// Every well-formed code has these prices, whose congestion and loss are 0.
#[derive(Clone, Copy)]
pub struct SinglePrice {
    day_ahead: Price,
    real_time: Price,
}

// The price with an energy component alone; refused where it is out of range.
fn energy_alone(energy: i64) -> Result<Price, Fault>
    ensures { elim result [ Ok p ↦ p.components ≡ alone energy | Err f ↦ (in_range energy ≡ false) × (f ≡ price_fault ComponentOutOfRange None) ] }
{
    Price::new(Components {
        energy,
        congestion: 0,
        loss: 0,
    })
    .ok_or(price_fault(Cause::ComponentOutOfRange, None))
}

impl SinglePrice {
    // The source with these energy components; refused where either is out of range.
    pub fn new(day_ahead: i64, real_time: i64) -> Result<SinglePrice, Fault>
        ensures { elim result [
          | Ok s ↦ ((in_range day_ahead && in_range real_time) ≡ true) × SaysAlone (single_quote s) day_ahead real_time
          | Err f ↦ ((in_range day_ahead && in_range real_time) ≡ false) × (f ≡ price_fault ComponentOutOfRange None)
        ] }
    {
        Ok(SinglePrice {
            day_ahead: energy_alone(day_ahead)?,
            real_time: energy_alone(real_time)?,
        })
    }
}

impl PriceSource for SinglePrice {
    ghost quote = { single_quote };

    ghost malformed = { Prim.search rules };

    ghost both = { λ s c. guard_both (well_formed c) _ _ refl };

    ghost alike = { λ s c d m p q e f. guarded_alike (λ (x : Price). x.components.energy) (well_formed c) (well_formed d) (price_in s m) p q e f };

    fn price(&self, code: &LocationCode, market: Market) -> Option<Price> {
        // One line in each source: a function of all that takes the rest as a closure is no plainer.
        if !code.is_well_formed() {
            return None;
        }
        // A choice of a field, which is no conversion of the market.
        match market {
            Market::DayAhead => Some(self.day_ahead),
            Market::RealTime => Some(self.real_time),
        }
    }
}
