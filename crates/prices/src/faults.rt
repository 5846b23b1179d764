// The faults that this layer finds.
ghost use Rattle.std.specs.Prelude.{◌≡◌};
ghost use Rattle.prices.specs.Refusals.{price_fault};

use measures::fault::{Cause, Fault, Layer};

// A fault of the price layer, at a place where it has one.
pub(crate) fn price_fault(cause: Cause, place: Option<usize>) -> Fault
    ensures { result ≡ price_fault cause place }
{
    Fault::new(cause, Layer::Price, place)
}
