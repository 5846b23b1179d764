// Faults: why a call was refused, in which layer, and at which place.
ghost use Rattle.std.specs.Prelude.{◌≡◌};
ghost use Rattle.measures.specs.Faults.{fault, number_of, layer_name, on_charge_line, on_text_line};

// The cause of a refusal; each has its number.
#[derive(Clone, Copy, PartialEq, Eq, Debug)]
pub enum Cause {
    UnknownParticipant = 1,
    Layout,
    QuantityOutOfRange,
    MalformedCode,
    BuyerIsSeller,
    UnknownPosting,
    PostingWithoutPrice,
    ComponentOutOfRange,
    OtherEnergyComponent,
    PricedAlready,
    GroupOutOfRange,
    MemberWithoutPrice,
    SharingLimits,
    ExpenseOutOfRange,
    ShortPage,
    WrongPhase = 21,
    ListFull,
    MarketLimit,
    SourceFull,
    VoidHour,
    OutOfMemory = 99,
}

// The layer that refused: text lines and pages, price sources, shares and expenses, or the hour.
#[derive(Clone, Copy, PartialEq, Eq, Debug)]
pub enum Layer {
    Text,
    Price,
    Share,
    Hour,
}

impl Layer {
    // The layer's name as it is printed.
    pub fn name(&self) -> &'static str
        ensures { result.now ≡ layer_name self.now }
    {
        match self {
            Layer::Text => "TEXT",
            Layer::Price => "PRICE",
            Layer::Share => "SHARE",
            Layer::Hour => "HOUR",
        }
    }
}

impl Cause {
    // The refusal's number.
    pub fn number(&self) -> u8
        ensures { result ≡ number_of self.now }
    {
        *self as u8
    }
}

// Why a call was refused. Places and lines count from 1.
#[derive(Clone, Copy, PartialEq, Eq, Debug)]
pub struct Fault {
    pub cause: Cause,
    pub layer: Layer,
    // the first member, weight or posting at fault
    pub place: Option<usize>,
    // the charge line that was being shared
    pub charge_line: Option<u8>,
    // the text line that brought the call
    pub text_line: Option<usize>,
}

impl Fault {
    // A fault in the layer that found it.
    pub fn new(cause: Cause, layer: Layer, place: Option<usize>) -> Fault
        ensures { result ≡ fault cause layer place }
    {
        Fault {
            cause,
            layer,
            place,
            charge_line: None,
            text_line: None,
        }
    }

    // The same fault with the charge line added by the layer above; one that has a charge line keeps it. Lines count
    // from 1, and 0 adds none.
    pub fn on_charge_line(self, line: u8) -> Fault
        ensures { result ≡ on_charge_line line self }
    {
        Fault {
            charge_line: self.charge_line.or((line > 0).then_some(line)),
            ..self
        }
    }

    // The same fault with the text line added by the layer above; one that has a text line keeps it. Lines count from 1,
    // and 0 adds none.
    pub fn on_text_line(self, line: usize) -> Fault
        ensures { result ≡ on_text_line line self }
    {
        Fault {
            text_line: self.text_line.or((line > 0).then_some(line)),
            ..self
        }
    }
}
