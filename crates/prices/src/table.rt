// A table of prices, filled row by row.
ghost use Rattle.std.specs.Prelude.{◌≡◌, true, vec_items};
ghost use Rattle.std.specs.List.{list_all};
ghost use Rattle.prices.specs.Rows.{has_one_energy, row_in_range};

use crate::faults::price_fault;
use crate::price::{Market, Price};
use crate::reserved::Reserved;
use crate::row::PriceRow;
use crate::rows;
use crate::source::PriceSource;
use measures::code::LocationCode;
use measures::fault::{Cause, Fault};
use std::alloc::Global;

// A table holds at most 64 rows.
const MOST_ROWS: usize = 64;

// Rows that are in range, and have the energy components of the first.
#[derive(Drop)]
pub struct PriceTable {
    rows: Reserved<PriceRow, MOST_ROWS>,
    ghost in_range: { list_all row_in_range (vec_items rows.items) ≡ true },
    ghost one_energy: { has_one_energy (vec_items rows.items) ≡ true },
}

impl PriceTable {
    ghost use Rattle.std.specs.Prelude.{◌≡◌, [], ◌∷◌, ◌++◌, Some, None, Ok, Err};
    ghost use Rattle.measures.specs.declared.fault.Cause.TheVariants.{OutOfMemory};
    ghost use Rattle.prices.specs.Quotes.{AddsPrice};
    ghost use Rattle.prices.specs.Refusals.{price_fault};
    ghost use Rattle.prices.specs.Rows.{components_in, row_refusal};
    ghost use Rattle.prices.specs.Tables.{rows_of, table_quote};

    // A table with no rows; refused only for want of memory.
    pub fn new(heap: Global) -> Result<PriceTable, Fault>
        ensures { elim result [ Ok t ↦ rows_of t ≡ [] | Err f ↦ f ≡ price_fault OutOfMemory None ] }
    {
        let rows = Reserved::new(heap)?;
        Ok(PriceTable { rows })
    }

    // Refuses a row that may not be added, for the first cause that applies.
    fn check(&self, row: &PriceRow) -> Result<(), Fault>
        ensures { elim result [ Ok _ ↦ row_refusal (rows_of self.now) row.now ≡ None | Err f ↦ row_refusal (rows_of self.now) row.now ≡ Some f ] }
    {
        let rows = self.rows.as_slice();
        if !row.code.is_well_formed() {
            return Err(price_fault(Cause::MalformedCode, None));
        }
        if !(row.day_ahead.are_in_range() && row.real_time.are_in_range()) {
            return Err(price_fault(Cause::ComponentOutOfRange, None));
        }
        if !rows::has_their_energy(rows, row) {
            return Err(price_fault(Cause::OtherEnergyComponent, None));
        }
        if rows::holds(rows, &row.code) {
            return Err(price_fault(Cause::PricedAlready, None));
        }
        if !self.rows.has_room() {
            return Err(price_fault(Cause::SourceFull, None));
        }
        Ok(())
    }

    // One row more, or the first cause that applies, and then nothing changes: a malformed code, a component out of
    // range, an energy component other than the table's in that market, a code that is held already, a full table.
    // An accepted row gives its code the prices of its components, and no other code another price.
    pub fn add(&mut self, row: PriceRow) -> Result<(), Fault>
        ensures { elim result [
          | Ok _ ↦ (row_refusal (rows_of self.old) row ≡ None) × (rows_of self.new ≡ rows_of self.old ++ row ∷ [])
              × AddsPrice (table_quote self.old) (table_quote self.new) row.code (components_in row)
          | Err f ↦ (row_refusal (rows_of self.old) row ≡ Some f) × (self.new ≡ self.old)
        ] }
    {
        self.check(&row)?;
        self.rows.push(row);
        Ok(())
    }
}

impl PriceSource for PriceTable {
    ghost use Rattle.std.proofs.Common.{rules};
    ghost use Rattle.measures.specs.Codes.{well_formed};
    ghost use Rattle.prices.specs.Found.{found_alike, found_both};
    ghost use Rattle.prices.specs.Guarded.{guard_both, guarded};
    ghost use Rattle.prices.specs.Tables.{table_quote};

    ghost quote = { table_quote };

    ghost malformed = { Prim.search rules };

    ghost both = { λ s c. guard_both (well_formed c) _ _ (found_both s.rows.items.items c s.in_range) };

    ghost alike = { λ s c d m p q e f. found_alike s.rows.items.items m c d p q s.one_energy (guarded (well_formed c) _ p e) (guarded (well_formed d) _ q f) };

    fn price(&self, code: &LocationCode, market: Market) -> Option<Price> {
        rows::quote_in(self.rows.as_slice(), code, market)
    }
}
