// Histories of an hour: any calls in any order, what they come to, and the laws that hold of all of them.
// A function here does nothing; its contract is a law for every history.
#![tactic(auto)]

ghost use Rattle.std.specs.Prelude.{List};
ghost use Rattle.histories.specs.Calls.{Call};
ghost use Rattle.histories.specs.Examples.{WorkedHours};
ghost use Rattle.histories.specs.Laws.{FromTheseCallsAlone, BothSides, NearExact, OneBilateralMore, WithinSharingLimits};
ghost use Rattle.postings.specs.declared.opening.Opening.{Opening};
ghost use Rattle.runs.specs.Examples.{WorkedExamples};

use runs::worked_examples;

// What stands in an hour, and what it answers, follows from its accepted calls alone.
pub fn from_these_calls_alone()
    ensures { (o : Opening) (past : List Call) → FromTheseCallsAlone o past }
{}

// All line adjustments issued add up to the fund, as do its own; those of one line, to the amount that stands.
pub fn both_sides_of_every_cent()
    ensures { (o : Opening) (past : List Call) → BothSides o past }
{}

// As last settled, each bill lies less than 8 + 4 × P cents from the exact bill; where anybody has weight, the fund
// lies less than 2 × P cents from the congestion value of the records alone.
pub fn near_the_exact_bill()
    ensures { (o : Opening) (past : List Call) → NearExact 8 4 2 o past }
{}

// Of two settled hours that differ by one bilateral: third parties' first six lines are equal; the buyer's and the
// seller's, added, differ by at most 3 cents, and cancel where the two stand in no other posting; at another priced
// location, everybody's energy lines stay.
pub fn one_bilateral_more()
    ensures { (o : Opening) (past : List Call) (o' : Opening) (past' : List Call) → OneBilateralMore 3 o past o' past' }
{}

// Whatever terms a settling brings, no pool passes 40,000,000,128 cents and no total weight 150,000,000 kWh, so its
// pools can always be shared.
pub fn within_the_sharing_limits()
    ensures { (o : Opening) (past : List Call) → WithinSharingLimits 40000000128 150000000 o past }
{}

// The worked examples of rounding, sharing and means, and the worked hours, hold together of the definitions.
pub fn worked_hours()
    ensures { WorkedExamples × WorkedHours }
{
    worked_examples();
}
