// What a list of price rows says of a code.
ghost use Rattle.std.specs.Prelude.{◌≡◌, Some, None, option_copied};
ghost use Rattle.prices.specs.Priced.{price_of};
ghost use Rattle.prices.specs.Rows.{components_in, held as holds_code, row_with, rows_quote, fits_energy};

use crate::price::{Market, Price};
use crate::row::PriceRow;
use measures::code::LocationCode;

// A row's price in a market: a choice of a field, which is no conversion of the market.
fn price_in(row: &PriceRow, market: Market) -> Option<Price>
    ensures { result ≡ price_of (components_in row.now market) }
{
    Price::new(match market {
        Market::DayAhead => row.day_ahead,
        Market::RealTime => row.real_time,
    })
}

// The first row with this code.
fn find<'a>(rows: &'a [PriceRow], code: &LocationCode) -> Option<&'a PriceRow>
    ensures { option_copied result ≡ row_with rows.now code.now }
{
    rows.iter().find(|row| row.code == *code)
}

// The price in the first row with this code, where the code is well-formed.
pub(crate) fn quote_in(rows: &[PriceRow], code: &LocationCode, market: Market) -> Option<Price>
    ensures { result ≡ rows_quote rows.now code.now market }
{
    // One line in each source: a function of all that takes the rest as a closure is no plainer.
    if !code.is_well_formed() {
        return None;
    }
    let row = find(rows, code)?;
    price_in(row, market)
}

// Whether some row has this code.
pub(crate) fn holds(rows: &[PriceRow], code: &LocationCode) -> bool
    ensures { result ≡ holds_code rows.now code.now }
{
    rows.iter().any(|row| row.code == *code)
}

// Whether a row has the energy components of the rows before it, which the first one fixes.
pub(crate) fn has_their_energy(rows: &[PriceRow], row: &PriceRow) -> bool
    ensures { result ≡ fits_energy rows.now row.now }
{
    match rows {
        [] => true,
        [first, ..] => {
            first.day_ahead.energy == row.day_ahead.energy
                && first.real_time.energy == row.real_time.energy
        }
    }
}
