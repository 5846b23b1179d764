// Records: what a participant bid, offered or was metered at one location.
ghost use Rattle.std.specs.Prelude.{◌≡◌};
ghost use Rattle.postings.specs.Kinds.{record_market, is_load};

use measures::amounts::KilowattHours;
use measures::code::LocationCode;
use prices::price::Market;

// The kind of a record; each belongs to one market and is either load or generation.
#[derive(Clone, Copy, PartialEq, Eq, Debug)]
pub enum RecordKind {
    DemandBid,
    DecrementBid,
    SupplyOffer,
    IncrementOffer,
    DayAheadPurchase,
    MeteredLoad,
    ExternalSale,
    MeteredGeneration,
    RealTimePurchase,
}

impl RecordKind {
    // The market that a record of this kind belongs to.
    pub fn market(&self) -> Market
        ensures { result ≡ record_market self.now }
    {
        match self {
            RecordKind::DemandBid
            | RecordKind::DecrementBid
            | RecordKind::SupplyOffer
            | RecordKind::IncrementOffer
            | RecordKind::DayAheadPurchase => Market::DayAhead,
            RecordKind::MeteredLoad
            | RecordKind::ExternalSale
            | RecordKind::MeteredGeneration
            | RecordKind::RealTimePurchase => Market::RealTime,
        }
    }

    // Whether a record of this kind is load; any other is generation.
    pub fn is_load(&self) -> bool
        ensures { result ≡ is_load self.now }
    {
        matches!(
            self,
            RecordKind::DemandBid
                | RecordKind::DecrementBid
                | RecordKind::MeteredLoad
                | RecordKind::ExternalSale
        )
    }
}

// A record as it is handed over: participant and quantity may be out of range, the code malformed.
#[derive(Clone, Copy, PartialEq, Eq, Debug)]
pub struct Record {
    pub kind: RecordKind,
    pub participant: i64,
    pub location: LocationCode,
    pub quantity: KilowattHours,
}
