// Location codes: eight bytes, one to eight code bytes and then spaces.
ghost use Rattle.std.specs.Prelude.{◌≡◌};
ghost use Rattle.measures.specs.Codes.{blank, code_byte, padded, same_code, well_formed};

// Any eight bytes, so that a malformed code can be handed over and refused. There are always eight, so no length stands
// beside them. The default, eight zero bytes, is malformed.
#[derive(Clone, Copy, PartialEq, Eq, Default, Debug)]
pub struct LocationCode {
    pub bytes: [u8; 8],
}

fn is_code_byte(byte: u8) -> bool
    ensures { result ≡ code_byte byte }
{
    matches!(byte, b'A'..=b'Z' | b'0'..=b'9' | b'.' | b'-')
}

// Whether there is nothing but spaces.
pub fn is_blank(bytes: &[u8]) -> bool
    ensures { result ≡ blank bytes.now }
{
    bytes.iter().all(|byte| *byte == b' ')
}

// Code bytes, and from some place on only spaces.
fn is_padded(bytes: &[u8]) -> bool
    ensures { result ≡ padded bytes.now }
{
    match bytes {
        [byte, rest @ ..] if is_code_byte(*byte) => is_padded(rest),
        _ => is_blank(bytes),
    }
}

impl LocationCode {
    pub fn is_well_formed(&self) -> bool
        ensures { result ≡ well_formed self.now }
    {
        let all = &self.bytes[..];
        match all {
            [] => false,
            [first, rest @ ..] => is_code_byte(*first) && is_padded(rest),
        }
    }

    // What `==` answers, which contracts call `same_code`.
    pub fn same(&self, other: &LocationCode) -> bool
        ensures { result ≡ same_code self.now other.now }
    {
        self == other
    }
}
