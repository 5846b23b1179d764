// A rounding rule turns thousandths of a cent into cents.
ghost use Rattle.std.specs.Prelude.{◌≡◌, ℤ, pos, ◌*ℤ◌, neg_ℤ};
ghost use Rattle.rules.specs.Rounding.{Near, half_away, half_even, toward_zero};
ghost use Rattle.std.proofs.Common.{rules};

use crate::sign::with_sign;
use measures::amounts::{Cents, Thousandths};

pub trait Rounding {
    // The number of cents that the rule answers to a number of thousandths.
    ghost rounds: { Self → ℤ → ℤ };

    fn round(&self, x: Thousandths) -> Cents
        ensures { result.0 ≡ rounds self.now x.0 };

    // A thousand times the answer lies less than 1,000 from what was asked.
    ghost near: { (rule : Self) (x : ℤ) → Near 1000 (pos 1000 *ℤ rounds rule x) x };

    // The answer to minus x is minus the answer to x.
    ghost odd: { (rule : Self) (x : ℤ) → rounds rule (neg_ℤ x) ≡ neg_ℤ (rounds rule x) };
}

// To the nearest cent, half a cent away from zero.
#[derive(Clone, Copy)]
pub struct HalfAwayFromZero;

impl Rounding for HalfAwayFromZero {
    ghost rounds = { λ _. half_away };

    ghost near = { Prim.search rules };

    ghost odd = { Prim.search rules };

    fn round(&self, x: Thousandths) -> Cents {
        Cents(with_sign(x.0, (x.0.unsigned_abs() + 500) / 1000))
    }
}

// To the nearest cent, half a cent to the even one.
#[derive(Clone, Copy)]
pub struct HalfToEven;

impl Rounding for HalfToEven {
    ghost rounds = { λ _. half_even };

    ghost near = { Prim.search rules };

    ghost odd = { Prim.search rules };

    fn round(&self, x: Thousandths) -> Cents {
        let size = x.0.unsigned_abs();
        let whole = size / 1000;
        let rest = size % 1000;
        let up = rest > 500 || rest == 500 && whole % 2 == 1;
        Cents(with_sign(x.0, whole + u64::from(up)))
    }
}

// The whole cents, toward zero.
#[derive(Clone, Copy)]
pub struct TowardZero;

impl Rounding for TowardZero {
    ghost rounds = { λ _. toward_zero };

    ghost near = { Prim.search rules };

    ghost odd = { Prim.search rules };

    fn round(&self, x: Thousandths) -> Cents {
        Cents(x.0 / 1000)
    }
}
