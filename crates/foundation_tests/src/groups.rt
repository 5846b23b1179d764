// Groups of locations over a price source, and the run over a source.
use crate::price_sources::{asked, code, east_and_west, numbered};
use crate::refusals::{Refusal, check_refused};
use measures::amounts::{Cents, Thousandths};
use measures::code::LocationCode;
use measures::fault::Layer;
use prices::groups::GroupTable;
use prices::layer::GroupLayer;
use prices::member::Member;
use prices::price::Market;
use prices::table::PriceTable;
use rules::rounding::Rounding;
use rules::sharing::Sharing;
use runs::default_run;
use std::process::Abort;
use std::test::Fail;

fn member(bytes: &[u8; 8], weight: i64) -> Member {
    Member {
        code: code(bytes),
        weight,
    }
}

// EAST and WEST with these weights.
fn both(east: i64, west: i64) -> [Member; 2] {
    [member(b"EAST    ", east), member(b"WEST    ", west)]
}

#[test]
fn a_group_has_the_weighted_means_of_its_members(rt: HostRuntime) -> Result<(), Fail> {
    let mut layer = GroupLayer::over(east_and_west(rt.alloc())?, GroupTable::new(rt.alloc())?);
    layer.form(code(b"EVEN    "), &both(1, 1))?;
    layer.form(code(b"UNEVEN  "), &both(3, 1))?;
    assert_eq!(rt;
        asked(&layer, &code(b"EVEN    "), Market::DayAhead),
        Some((3_000, 153, -23))
    );
    assert_eq!(rt;
        asked(&layer, &code(b"EVEN    "), Market::RealTime),
        Some((3_500, 0, 7))
    );
    assert_eq!(rt;
        asked(&layer, &code(b"UNEVEN  "), Market::DayAhead),
        Some((3_000, 126, -21))
    );
    assert_eq!(rt;
        asked(&layer, &code(b"UNEVEN  "), Market::RealTime),
        Some((3_500, 3, 6))
    );
    assert_eq!(rt;
        asked(&layer, &code(b"WEST    "), Market::DayAhead),
        Some((3_000, 205, -25))
    );
    assert_eq!(rt; asked(&layer, &code(b"NORTH   "), Market::DayAhead), None);
    Ok(())
}

// Checks that a group is refused, and that the layer is left as it was.
fn check_not_formed(
    rt: &impl Abort,
    case: &str,
    layer: &mut GroupLayer<PriceTable>,
    group: LocationCode,
    members: &[Member],
    number: u8,
    place: usize,
) {
    let answer = layer.form(group, members);
    check_refused(rt, case, answer, Refusal::new(number, Layer::Price, place));
    assert_eq!(rt;
        asked(layer, &code(b"EVEN    "), Market::DayAhead),
        Some((3_000, 153, -23)),
        "{case}"
    );
    assert_eq!(rt;
        asked(layer, &code(b"EAST    "), Market::DayAhead),
        Some((3_000, 100, -20)),
        "{case}"
    );
    assert_eq!(rt;
        asked(layer, &code(b"NEW     "), Market::DayAhead),
        None,
        "{case}"
    );
}

#[test]
fn a_refused_group_leaves_the_layer_as_it_was(rt: HostRuntime) -> Result<(), Fail> {
    let new = code(b"NEW     ");
    let mut layer = GroupLayer::over(east_and_west(rt.alloc())?, GroupTable::new(rt.alloc())?);
    layer.form(code(b"EVEN    "), &both(1, 1))?;
    check_not_formed(
        &rt,
        "malformed code",
        &mut layer,
        code(b"NEW    ."),
        &both(1, 1),
        4,
        0,
    );
    check_not_formed(
        &rt,
        "priced below",
        &mut layer,
        code(b"EAST    "),
        &both(1, 1),
        10,
        0,
    );
    check_not_formed(
        &rt,
        "priced by a group",
        &mut layer,
        code(b"EVEN    "),
        &both(1, 1),
        10,
        0,
    );
    check_not_formed(&rt, "no members", &mut layer, new, &[], 11, 0);
    check_not_formed(
        &rt,
        "nine members",
        &mut layer,
        new,
        &[member(b"EAST    ", 1); 9],
        11,
        0,
    );
    check_not_formed(&rt, "weight 0", &mut layer, new, &both(1, 0), 11, 2);
    check_not_formed(&rt, "weight 1,001", &mut layer, new, &both(1_001, 0), 11, 1);
    check_not_formed(
        &rt,
        "member without price",
        &mut layer,
        new,
        &[member(b"NORTH   ", 1); 2],
        12,
        1,
    );
    // a member is priced by the source below, not by a group beside it
    check_not_formed(
        &rt,
        "group beside",
        &mut layer,
        new,
        &[member(b"EAST    ", 1), member(b"EVEN    ", 1)],
        12,
        2,
    );
    Ok(())
}

#[test]
fn a_layer_holds_eight_groups(rt: HostRuntime) -> Result<(), Fail> {
    let mut layer = GroupLayer::over(east_and_west(rt.alloc())?, GroupTable::new(rt.alloc())?);
    for number in 0..8u8 {
        layer.form(numbered(b'G', number), &[member(b"EAST    ", 1_000); 8])?;
    }
    check_refused(
        &rt,
        "a ninth group",
        layer.form(numbered(b'G', 8), &both(1, 1)),
        Refusal::new(24, Layer::Price, 0),
    );
    assert_eq!(rt;
        asked(&layer, &numbered(b'G', 7), Market::RealTime),
        Some((3_500, 5, 6))
    );
    assert_eq!(rt; asked(&layer, &numbered(b'G', 8), Market::RealTime), None);
    Ok(())
}

#[test]
fn a_layer_over_a_layer_prices_groups_of_groups(rt: HostRuntime) -> Result<(), Fail> {
    let mut lower = GroupLayer::over(east_and_west(rt.alloc())?, GroupTable::new(rt.alloc())?);
    lower.form(code(b"EVEN    "), &both(1, 1))?;
    let mut upper = GroupLayer::over(lower, GroupTable::new(rt.alloc())?);
    upper.form(
        code(b"UPPER   "),
        &[member(b"EVEN    ", 1), member(b"EAST    ", 1)],
    )?;
    assert_eq!(rt;
        asked(&upper, &code(b"UPPER   "), Market::DayAhead),
        Some((3_000, 127, -22))
    );
    assert_eq!(rt;
        asked(&upper, &code(b"EVEN    "), Market::DayAhead),
        Some((3_000, 153, -23))
    );
    check_refused(
        &rt,
        "priced by the layer below",
        upper.form(code(b"EVEN    "), &both(1, 1)),
        Refusal::new(10, Layer::Price, 0),
    );
    Ok(())
}

#[test]
fn a_default_run_has_its_source_and_the_default_rules(rt: HostRuntime) -> Result<(), Fail> {
    let run = default_run(east_and_west(rt.alloc())?);
    assert_eq!(rt;
        asked(&run.source, &code(b"WEST    "), Market::RealTime),
        Some((3_500, -5, 7))
    );
    assert_eq!(rt; run.rounding.round(Thousandths(2_500)).0, 3);
    let mut to = [Cents(0); 3];
    run.sharing.share(Cents(100), &[1, 1, 1], &mut to)?;
    assert_eq!(rt; to.map(|share| share.0), [34, 33, 33]);
    Ok(())
}
