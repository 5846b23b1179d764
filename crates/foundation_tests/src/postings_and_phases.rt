// Postings, phases and openings.
use measures::amounts::KilowattHours;
use measures::code::LocationCode;
use postings::bilateral::{Bilateral, BilateralKind};
use postings::opening::Opening;
use postings::phase::Phase;
use postings::posting::Posting;
use postings::record::{Record, RecordKind};
use prices::price::Market;

fn node() -> LocationCode {
    LocationCode {
        bytes: *b"NODE.A  ",
    }
}

#[test]
fn kinds_of_records(rt: HostRuntime) {
    assert_eq!(rt; RecordKind::DayAheadPurchase.market(), Market::DayAhead);
    assert_eq!(rt; RecordKind::RealTimePurchase.market(), Market::RealTime);
    assert!(rt; RecordKind::DecrementBid.is_load());
    assert!(rt; RecordKind::ExternalSale.is_load());
    assert!(rt; !RecordKind::IncrementOffer.is_load());
    assert!(rt; !RecordKind::RealTimePurchase.is_load());
}

#[test]
fn phases_take_their_market(rt: HostRuntime) {
    assert!(rt; Phase::DayAheadOpen.takes(Market::DayAhead));
    assert!(rt; !Phase::DayAheadOpen.takes(Market::RealTime));
    assert!(rt; Phase::RealTimeOpen.takes(BilateralKind::RealTimeLoad.market()));
    assert!(rt; !Phase::Settled.takes(Market::RealTime));
    assert!(rt; !Phase::Void.takes(Market::DayAhead));
}

#[test]
fn openings_at_their_limits(rt: HostRuntime) {
    let full = Opening {
        participants: 64,
        rows: 64,
        record_places: 2000,
        bilateral_places: 255,
    };
    assert_eq!(rt; full.participant_count(), 64);
    assert_eq!(rt; full.record_capacity(), 1024);
    assert_eq!(rt; full.bilateral_capacity(), 255);
    let crowded = Opening {
        participants: 65,
        rows: 65,
        ..full
    };
    assert!(rt; crowded.is_void());
    let short = Opening { rows: 63, ..full };
    assert!(rt; short.is_void());
    assert_eq!(rt; short.participant_count(), 0);
}

#[test]
fn a_revision_keeps_the_rest(rt: HostRuntime) {
    let bid = Record {
        kind: RecordKind::DemandBid,
        participant: 3,
        location: node(),
        quantity: KilowattHours(40),
    };
    let revised = bid.revised(KilowattHours(41));
    assert_eq!(rt; revised.quantity(), KilowattHours(41));
    assert_eq!(rt; revised.participant, 3);
    assert_eq!(rt;
        revised,
        Record {
            quantity: KilowattHours(41),
            ..bid
        }
    );
    let sale = Bilateral {
        kind: BilateralKind::RealTimeLoad,
        buyer: 1,
        seller: 2,
        location: node(),
        quantity: KilowattHours(7),
    };
    let revised = sale.revised(KilowattHours(0));
    assert_eq!(rt; revised.quantity(), KilowattHours(0));
    assert_eq!(rt; revised.buyer, 1);
    assert_eq!(rt; revised.seller, 2);
    assert_eq!(rt;
        revised,
        Bilateral {
            quantity: KilowattHours(0),
            ..sale
        }
    );
}
