// The phases of an hour.
ghost use Rattle.std.specs.Prelude.{◌≡◌};
ghost use Rattle.postings.specs.Phases.{takes};

use prices::price::Market;

// Void, or open for day-ahead postings, or open for real-time postings, or settled.
#[derive(Clone, Copy, PartialEq, Eq, Debug)]
pub enum Phase {
    Void,
    DayAheadOpen,
    RealTimeOpen,
    Settled,
}

impl Phase {
    // Whether postings of the market are taken and revised in this phase.
    pub fn takes(&self, market: Market) -> bool
        ensures { result ≡ takes self.now market }
    {
        match (self, market) {
            (Phase::DayAheadOpen, Market::DayAhead) => true,
            (Phase::RealTimeOpen, Market::RealTime) => true,
            (_, _) => false,
        }
    }
}
