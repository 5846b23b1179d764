// What the price tests share: codes, rows and questions.
use measures::code::LocationCode;
use measures::fault::Fault;
use prices::price::Market;
use prices::row::{Components, PriceRow};
use prices::source::PriceSource;
use prices::table::PriceTable;
use std::alloc::Global;

pub(crate) fn code(bytes: &[u8; 8]) -> LocationCode {
    LocationCode { bytes: *bytes }
}

// The code of a letter and a number below 100.
pub(crate) fn numbered(letter: u8, number: u8) -> LocationCode {
    let tens = b'0' + number / 10 % 10;
    let ones = b'0' + number % 10;
    LocationCode {
        bytes: [letter, tens, ones, b' ', b' ', b' ', b' ', b' '],
    }
}

pub(crate) fn components(energy: i64, congestion: i64, loss: i64) -> Components {
    Components {
        energy,
        congestion,
        loss,
    }
}

pub(crate) fn row(code: LocationCode, day_ahead: Components, real_time: Components) -> PriceRow {
    PriceRow {
        code,
        day_ahead,
        real_time,
    }
}

// Energy, congestion and loss that a source says of a code.
pub(crate) fn asked<S: PriceSource>(
    source: &S,
    code: &LocationCode,
    market: Market,
) -> Option<(i64, i64, i64)> {
    let price = source.price(code, market)?;
    Some((price.energy(), price.congestion(), price.loss()))
}

// The table that the tests ask: EAST and WEST, with congestion 100 and 205 in the day-ahead market.
pub(crate) fn east_and_west(heap: Global) -> Result<PriceTable, Fault> {
    let mut table = PriceTable::new(heap)?;
    table.add(row(
        code(b"EAST    "),
        components(3_000, 100, -20),
        components(3_500, 5, 6),
    ))?;
    table.add(row(
        code(b"WEST    "),
        components(3_000, 205, -25),
        components(3_500, -5, 7),
    ))?;
    Ok(table)
}
