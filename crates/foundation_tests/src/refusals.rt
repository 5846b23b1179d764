// What a test expects of a refused call.
use measures::fault::{Fault, Layer};
use std::process::Abort;

// Everything that a fault says, its cause by number.
#[derive(Clone, Copy, PartialEq, Debug)]
pub(crate) struct Refusal {
    number: u8,
    layer: Layer,
    place: Option<usize>,
    charge_line: Option<u8>,
    text_line: Option<usize>,
}

impl Refusal {
    // A refusal that names neither a charge line nor a text line. What is expected stands in the numbers that a user reads,
    // as a printed refusal has them: place 0 for none.
    pub(crate) fn new(number: u8, layer: Layer, place: usize) -> Refusal {
        Refusal {
            number,
            layer,
            place: (place > 0).then_some(place),
            charge_line: None,
            text_line: None,
        }
    }

    pub(crate) fn on_charge_line(self, charge_line: u8) -> Refusal {
        Refusal {
            charge_line: Some(charge_line),
            ..self
        }
    }

    // Line 0 stands for the whole text.
    pub(crate) fn on_text_line(self, text_line: usize) -> Refusal {
        Refusal {
            text_line: (text_line > 0).then_some(text_line),
            ..self
        }
    }
}

impl From<Fault> for Refusal {
    fn from(fault: Fault) -> Refusal {
        Refusal {
            number: fault.cause.number(),
            layer: fault.layer,
            place: fault.place,
            charge_line: fault.charge_line,
            text_line: fault.text_line,
        }
    }
}

// Checks that a call was refused, and all that its fault says.
pub(crate) fn check_refused<T: Drop>(
    rt: &impl Abort,
    case: &str,
    answer: Result<T, Fault>,
    expected: Refusal,
) {
    assert_eq!(rt; answer.err().map(Refusal::from), Some(expected), "{case}");
}
