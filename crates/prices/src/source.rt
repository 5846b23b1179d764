// What every price source has in common.
ghost use Rattle.std.specs.Prelude.{◌≡◌, false, is_some, Some, None, Option};
ghost use Rattle.measures.specs.Codes.{well_formed};
ghost use Rattle.measures.specs.declared.code.LocationCode.{LocationCode};
ghost use Rattle.prices.specs.declared.price.Market.{Market};
ghost use Rattle.prices.specs.declared.price.Market.TheVariants.{DayAhead, RealTime};
ghost use Rattle.prices.specs.declared.price.Price.{Price};

use crate::price::{Market, Price};
use measures::code::LocationCode;

// A source of prices. Asking changes nothing.
pub trait PriceSource {
    // The price of a location in a market, where it has one.
    ghost quote: { Self → LocationCode → Market → Option Price };

    // Code and market are two arguments: a struct would be made for each question.
    fn price(&self, code: &LocationCode, market: Market) -> Option<Price>
        ensures { result ≡ quote self.now code.now market };

    // A malformed code has no price.
    ghost malformed: { (s : Self) (c : LocationCode) (m : Market) → well_formed c ≡ false → quote s c m ≡ None };

    // A code has a price in both markets or in neither.
    ghost both: { (s : Self) (c : LocationCode) → is_some (quote s c DayAhead) ≡ is_some (quote s c RealTime) };

    // Within one market all prices have the same energy component.
    ghost alike: { (s : Self) (c d : LocationCode) (m : Market) (p q : Price) → quote s c m ≡ Some p → quote s d m ≡ Some q → p.components.energy ≡ q.components.energy };
}
