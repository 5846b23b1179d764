// Bilaterals: energy or load that one participant sells to another at one location.
ghost use Rattle.std.specs.Prelude.{◌≡◌};
ghost use Rattle.postings.specs.Kinds.{bilateral_market};

use measures::amounts::KilowattHours;
use measures::code::LocationCode;
use prices::price::Market;

// What is sold: energy in one of the markets, or load in the real-time market.
#[derive(Clone, Copy, PartialEq, Eq, Debug)]
pub enum BilateralKind {
    DayAheadEnergy,
    RealTimeEnergy,
    RealTimeLoad,
}

impl BilateralKind {
    // The market that a bilateral of this kind belongs to.
    pub fn market(&self) -> Market
        ensures { result ≡ bilateral_market self.now }
    {
        match self {
            BilateralKind::DayAheadEnergy => Market::DayAhead,
            BilateralKind::RealTimeEnergy | BilateralKind::RealTimeLoad => Market::RealTime,
        }
    }
}

// A bilateral as it is handed over: participants and quantity may be out of range, the code malformed.
#[derive(Clone, Copy, PartialEq, Eq, Debug)]
pub struct Bilateral {
    pub kind: BilateralKind,
    pub buyer: i64,
    pub seller: i64,
    pub location: LocationCode,
    pub quantity: KilowattHours,
}
