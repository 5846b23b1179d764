// From the bytes of a month's file to the text of its bill.
ghost use Rattle.std.specs.Prelude.{◌≡◌};
ghost use Rattle.expense_text.specs.Files.{FileAnswered, at_its_line};

use crate::bill::expense_bill;
use crate::month::read_month;
use measures::fault::{Cause, Fault, Layer};
use rules::sharing::{MOST_WEIGHTS, Sharing};
use std::alloc::Global;

// The most bytes that a file has.
const LONGEST_FILE: usize = 65_536;

// A refused month names the text line of the participant at fault, or the first line.
fn at_its_line(fault: Fault) -> Fault
    ensures { result ≡ at_its_line fault }
{
    let line = fault.place.map_or(1, |place| place.min(MOST_WEIGHTS) + 1);
    fault.on_text_line(line)
}

// The bill of the month that a file states, or why there is none.
pub fn bill_of_file<H: Sharing>(heap: Global, rule: &H, input: &[u8]) -> Result<String, Fault>
    ensures { FileAnswered (H.Sharing.shares rule.now) input.now result }
{
    if input.len() > LONGEST_FILE {
        return Err(Fault::new(Cause::Layout, Layer::Text, None));
    }
    let month = read_month(heap, input)?;
    expense_bill(heap, rule, &month).map_err(at_its_line)
}
