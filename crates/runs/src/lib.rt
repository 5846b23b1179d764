// A settlement run, put together from a price source, a rounding rule and a sharing rule.
#![tactic(auto)]

ghost use Rattle.std.specs.Prelude.{◌≡◌, true};
ghost use Rattle.runs.specs.Examples.{WorkedExamples};

use rules::rounding::HalfAwayFromZero;
use rules::sharing::LargestRemainder;

// The rules of a run that names none.
pub type DefaultRounding = HalfAwayFromZero;

pub type DefaultSharing = LargestRemainder;

#[derive(Drop)]
pub struct Run<S, R = DefaultRounding, H = DefaultSharing> {
    pub source: S,
    pub rounding: R,
    pub sharing: H,
}

// A run that names no rule: halves away from zero, shares by largest remainder.
pub fn default_run<S>(source: S) -> Run<S>
    ensures { result.source ≡ source }
{
    Run {
        source,
        rounding: HalfAwayFromZero,
        sharing: LargestRemainder,
    }
}

// The worked examples of rounding, sharing and means hold of the definitions that the contracts cite. It answers `true`
// and nothing else, as its contract says; a caller may rely on either.
pub fn worked_examples() -> bool
    ensures answer { result ≡ true }
    ensures examples { WorkedExamples }
{
    true
}
