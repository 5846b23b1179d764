// What records and bilaterals have in common.
ghost use Rattle.std.specs.Prelude.{ℤ, ◌≡◌};
ghost use Rattle.measures.specs.declared.amounts.KilowattHours.{KilowattHours};
ghost use Rattle.postings.specs.Kinds.{record_market, bilateral_market};
ghost use Rattle.postings.specs.Revised.{revised_record, revised_bilateral};
ghost use Rattle.prices.specs.declared.price.Market.{Market};

use crate::bilateral::Bilateral;
use crate::record::Record;
use measures::amounts::KilowattHours;
use prices::price::Market;

pub trait Posting: Sized {
    // The market that it belongs to.
    ghost market: { Self → Market };

    // Its kilowatt-hours.
    ghost quantity: { Self → ℤ };

    // The same posting with another quantity.
    ghost revised: { KilowattHours → Self → Self };

    fn market(&self) -> Market
        ensures { result ≡ market self.now };

    fn quantity(&self) -> KilowattHours
        ensures { result.0 ≡ quantity self.now };

    fn revised(&self, kwh: KilowattHours) -> Self
        ensures { result ≡ revised kwh self.now };
}

impl Posting for Record {
    ghost market = { λ r. record_market r.kind };

    ghost quantity = { λ r. r.quantity.0 };

    ghost revised = { revised_record };

    fn market(&self) -> Market {
        self.kind.market()
    }

    fn quantity(&self) -> KilowattHours {
        self.quantity
    }

    fn revised(&self, kwh: KilowattHours) -> Record {
        Record {
            quantity: kwh,
            ..*self
        }
    }
}

impl Posting for Bilateral {
    ghost market = { λ x. bilateral_market x.kind };

    ghost quantity = { λ x. x.quantity.0 };

    ghost revised = { revised_bilateral };

    fn market(&self) -> Market {
        self.kind.market()
    }

    fn quantity(&self) -> KilowattHours {
        self.quantity
    }

    fn revised(&self, kwh: KilowattHours) -> Bilateral {
        Bilateral {
            quantity: kwh,
            ..*self
        }
    }
}
