// Measures: one struct round a number for each, so that no amount of one is taken for another.
// One struct with its unit as a type parameter is no plainer: an alias of it has no constructor, and a constant may not
// call a function, so that `Cents(7)` could be written neither in code nor as a constant.
ghost use Rattle.std.specs.Prelude.{◌≡◌, ℤ, ◌+ℤ◌, ◌-ℤ◌, FitsSigned};
ghost use Rattle.std.specs.Int.{w64};

use std::ops::{Add, Sub};

// Whole kilowatt-hours; 1 MWh is 1,000 kWh.
#[derive(Clone, Copy, PartialEq, Eq, Debug)]
pub struct KilowattHours(pub i64);

// Thousandths of a cent: kilowatt-hours times a price in cents per MWh.
#[derive(Clone, Copy, PartialEq, Eq, Debug)]
pub struct Thousandths(pub i64);

// Whole cents, positive where the participant pays.
#[derive(Clone, Copy, PartialEq, Eq, Default, Debug)]
pub struct Cents(pub i64);

// Whole megawatt-hours, a unit of weight.
#[derive(Clone, Copy, PartialEq, Eq, Default, Debug)]
pub struct MegawattHours(pub i64);

// Whole kilowatts, a unit of weight.
#[derive(Clone, Copy, PartialEq, Eq, Default, Debug)]
pub struct Kilowatts(pub i64);

// Operators are written out, since no derive of the library gives them.
impl Add<Cents> for Cents {
    type Output = Cents;

    ghost can_add = { λ a b. FitsSigned w64 (a.0 +ℤ b.0) };

    ghost add_gives = { λ a b r. r.0 ≡ a.0 +ℤ b.0 };

    fn add(self, rhs: Cents) -> Cents {
        Cents(self.0 + rhs.0)
    }
}

impl Sub<Cents> for Cents {
    type Output = Cents;

    ghost can_sub = { λ a b. FitsSigned w64 (a.0 -ℤ b.0) };

    ghost sub_gives = { λ a b r. r.0 ≡ a.0 -ℤ b.0 };

    fn sub(self, rhs: Cents) -> Cents {
        Cents(self.0 - rhs.0)
    }
}

impl Add<MegawattHours> for MegawattHours {
    type Output = MegawattHours;

    ghost can_add = { λ a b. FitsSigned w64 (a.0 +ℤ b.0) };

    ghost add_gives = { λ a b r. r.0 ≡ a.0 +ℤ b.0 };

    fn add(self, rhs: MegawattHours) -> MegawattHours {
        MegawattHours(self.0 + rhs.0)
    }
}

impl Add<Kilowatts> for Kilowatts {
    type Output = Kilowatts;

    ghost can_add = { λ a b. FitsSigned w64 (a.0 +ℤ b.0) };

    ghost add_gives = { λ a b r. r.0 ≡ a.0 +ℤ b.0 };

    fn add(self, rhs: Kilowatts) -> Kilowatts {
        Kilowatts(self.0 + rhs.0)
    }
}

// A unit in which the weights of a shared line are counted. `Into<i64>` would be no plainer: it says what it gives by a
// relation, and contracts list the numbers of units, for which they need the function.
pub trait WeightUnit: Sized {
    // The number of units.
    ghost units: { Self → ℤ };

    fn units(&self) -> i64
        ensures { result ≡ units self.now };
}

impl WeightUnit for KilowattHours {
    ghost units = { λ w. w.0 };

    fn units(&self) -> i64 {
        self.0
    }
}

impl WeightUnit for MegawattHours {
    ghost units = { λ w. w.0 };

    fn units(&self) -> i64 {
        self.0
    }
}

impl WeightUnit for Kilowatts {
    ghost units = { λ w. w.0 };

    fn units(&self) -> i64 {
        self.0
    }
}
