// Price tables and the single price.
use crate::price_sources::{asked, code, components, east_and_west, numbered, row};
use crate::refusals::{Refusal, check_refused};
use measures::fault::Layer;
use prices::price::Market;
use prices::row::PriceRow;
use prices::single::SinglePrice;
use prices::table::PriceTable;
use std::process::Abort;
use std::test::Fail;

// Checks that the table holds EAST and WEST, and no other code that the tests name.
fn check_east_and_west(rt: &impl Abort, table: &PriceTable) {
    assert_eq!(rt;
        asked(table, &code(b"EAST    "), Market::DayAhead),
        Some((3_000, 100, -20))
    );
    assert_eq!(rt;
        asked(table, &code(b"EAST    "), Market::RealTime),
        Some((3_500, 5, 6))
    );
    assert_eq!(rt;
        asked(table, &code(b"WEST    "), Market::DayAhead),
        Some((3_000, 205, -25))
    );
    assert_eq!(rt;
        asked(table, &code(b"WEST    "), Market::RealTime),
        Some((3_500, -5, 7))
    );
    assert_eq!(rt; asked(table, &code(b"NORTH   "), Market::DayAhead), None);
    assert_eq!(rt; asked(table, &code(b"NORTH   "), Market::RealTime), None);
    assert_eq!(rt; asked(table, &code(b"EAST  1 "), Market::DayAhead), None);
}

// Checks that a row is refused, and that the table is left as it was.
fn check_not_added(
    rt: &impl Abort,
    case: &str,
    table: &mut PriceTable,
    refused: PriceRow,
    number: u8,
) {
    let answer = table.add(refused);
    check_refused(rt, case, answer, Refusal::new(number, Layer::Price, 0));
    check_east_and_west(rt, table);
}

#[test]
fn a_refused_row_leaves_the_table_as_it_was(rt: HostRuntime) -> Result<(), Fail> {
    let day_ahead = components(3_000, 1, 2);
    let real_time = components(3_500, 3, 4);
    let north = code(b"NORTH   ");
    let mut table = east_and_west(rt.alloc())?;
    check_east_and_west(&rt, &table);
    check_not_added(
        &rt,
        "a code byte after a space",
        &mut table,
        row(code(b"EAST  1 "), day_ahead, real_time),
        4,
    );
    check_not_added(
        &rt,
        "no code, and out of range",
        &mut table,
        row(code(b"        "), components(100_001, 0, 0), real_time),
        4,
    );
    check_not_added(
        &rt,
        "small letters",
        &mut table,
        row(code(b"north   "), day_ahead, real_time),
        4,
    );
    check_not_added(
        &rt,
        "congestion out of range",
        &mut table,
        row(north, components(3_000, 100_001, 2), real_time),
        8,
    );
    check_not_added(
        &rt,
        "loss out of range",
        &mut table,
        row(north, day_ahead, components(3_501, 0, -100_001)),
        8,
    );
    check_not_added(
        &rt,
        "another day-ahead energy",
        &mut table,
        row(north, components(3_001, 1, 2), real_time),
        9,
    );
    check_not_added(
        &rt,
        "another real-time energy",
        &mut table,
        row(north, day_ahead, components(3_499, 3, 4)),
        9,
    );
    check_not_added(
        &rt,
        "priced already",
        &mut table,
        row(code(b"EAST    "), day_ahead, real_time),
        10,
    );
    table.add(row(north, components(3_000, 100_000, -100_000), real_time))?;
    assert_eq!(rt;
        asked(&table, &north, Market::DayAhead),
        Some((3_000, 100_000, -100_000))
    );
    Ok(())
}

#[test]
fn a_table_holds_64_rows(rt: HostRuntime) -> Result<(), Fail> {
    let both = components(3_000, 1, 2);
    let mut table = PriceTable::new(rt.alloc())?;
    for number in 0..64u8 {
        table.add(row(numbered(b'N', number), both, both))?;
    }
    check_refused(
        &rt,
        "a row again",
        table.add(row(numbered(b'N', 63), both, both)),
        Refusal::new(10, Layer::Price, 0),
    );
    check_refused(
        &rt,
        "a 65th row",
        table.add(row(numbered(b'N', 64), both, both)),
        Refusal::new(24, Layer::Price, 0),
    );
    assert_eq!(rt;
        asked(&table, &numbered(b'N', 0), Market::DayAhead),
        Some((3_000, 1, 2))
    );
    assert_eq!(rt;
        asked(&table, &numbered(b'N', 63), Market::RealTime),
        Some((3_000, 1, 2))
    );
    assert_eq!(rt; asked(&table, &numbered(b'N', 64), Market::DayAhead), None);
    Ok(())
}

#[test]
fn a_single_price_is_that_of_every_code(rt: HostRuntime) -> Result<(), Fail> {
    let single = SinglePrice::new(3_000, -100_000)?;
    assert_eq!(rt;
        asked(&single, &code(b"EAST    "), Market::DayAhead),
        Some((3_000, 0, 0))
    );
    assert_eq!(rt;
        asked(&single, &code(b"A.B-9XYZ"), Market::RealTime),
        Some((-100_000, 0, 0))
    );
    assert_eq!(rt; asked(&single, &code(b" EAST   "), Market::DayAhead), None);
    assert_eq!(rt; asked(&single, &code(b"EAST_   "), Market::RealTime), None);
    check_refused(
        &rt,
        "day-ahead energy out of range",
        SinglePrice::new(100_001, 0),
        Refusal::new(8, Layer::Price, 0),
    );
    check_refused(
        &rt,
        "real-time energy out of range",
        SinglePrice::new(0, -100_001),
        Refusal::new(8, Layer::Price, 0),
    );
    Ok(())
}
