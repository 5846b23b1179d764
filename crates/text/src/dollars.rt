// Amounts as they are printed: in dollars, after a minus sign where they are negative.
ghost use Rattle.std.specs.Prelude.{◌≡◌, Some};
ghost use Rattle.std.specs.Fmt.{styled_text};
ghost use Rattle.text.specs.Fields.{dollars_text};

use arrayvec::ArrayString;
use itoa::Buffer;
use measures::amounts::Cents;
use std::fmt;

// An amount that is printed in dollars.
#[derive(Clone, Copy)]
pub struct Dollars(pub Cents);

impl Dollars {
    // The text: a sign, twenty digits, a point and two digits at most.
    #[tactic(auto, using(std::proofs::lemmas::Fmt::decimal_digit, crate::proofs::Printed::negative, crate::proofs::Printed::positive))]
    pub fn text(self) -> ArrayString<24>
        ensures { result.bytes ≡ dollars_text self.0.0 }
    {
        let cents = self.0.0.unsigned_abs();
        let mut digits = Buffer::new();
        let mut text = ArrayString::new();
        if self.0.0 < 0 {
            text.push_str("-");
        }
        text.push_str(digits.format(cents / 100));
        text.push_str(".");
        text.push_str(digits.format(cents / 10 % 10));
        text.push_str(digits.format(cents % 10));
        text
    }
}

impl fmt::Display for Dollars {
    ghost output = { λ d. Some (dollars_text d.0.0) };

    ghost styled_output = { λ d s. Some (styled_text s (dollars_text d.0.0)) };

    fn fmt<W: fmt::Write>(&self, f: &mut fmt::Formatter<W>) -> fmt::Result {
        f.pad(self.text().as_str())
    }
}
