// Fields: bytes in fixed columns, right-justified after spaces.
ghost use Rattle.std.specs.Prelude.{◌≡◌, ◌≤◌, true, length, ℤ, Some, Decides};
ghost use Rattle.text.specs.Fields.{Field, Reads, dollars_text, fits, number_text, right, written};

use crate::dollars::Dollars;
use itoa::Buffer;
use measures::amounts::Cents;
use measures::code::is_blank;

// The most columns of a field that is read as a number, so that the number fits its type.
const MOST_COLUMNS: usize = 18;

// Writes the text right-justified where it fits; where it does not, answers false and leaves the field as it was. A yes
// or no with nothing beside it, so a bool and no Result.
pub fn write_text(field: &mut [u8], text: &[u8]) -> bool
    ensures answer { result ≡ fits text.now field.old }
    ensures holds { field.new ≡ written text.now field.old }
{
    let width = field.len();
    if text.len() > width {
        return false;
    }
    let start = width - text.len();
    field[0..start].fill(b' ');
    field[start..width].copy_from_slice(text);
    true
}

// Writes a number as `write_text` writes its text. What is written reads as that number again.
pub fn write_number(field: &mut [u8], number: i64) -> bool
    ensures answer { result ≡ fits (number_text number) field.old }
    ensures holds { field.new ≡ written (number_text number) field.old }
    ensures reads { result ≡ true → length field.old ≤ 18 → Field field.new number }
{
    let mut digits = Buffer::new();
    write_text(field, digits.format(number).as_bytes())
}

// Writes an amount in dollars as `write_text` writes its text.
pub fn write_dollars(field: &mut [u8], amount: Cents) -> bool
    ensures answer { result ≡ fits (dollars_text amount.0) field.old }
    ensures holds { field.new ≡ written (dollars_text amount.0) field.old }
{
    write_text(field, Dollars(amount).text().as_bytes())
}

// The only number that the field can hold: the one that its text states after the spaces.
fn candidate(field: &[u8]) -> Option<i64>
    ensures { (z : ℤ) → Field field.now z → result ≡ Some z }
{
    let text = str::from_utf8(field.trim_ascii_start()).ok()?;
    text.parse().ok()
}

// Whether the field is the number's text, right-justified.
fn holds(field: &[u8], number: i64) -> bool
    ensures { Decides result (field.now ≡ right (length field.now) (number_text number)) }
{
    let mut digits = Buffer::new();
    field
        .strip_suffix(digits.format(number).as_bytes())
        .is_some_and(is_blank)
}

// The number that the field holds: the one whose text, right-justified, is the whole field.
// So leading zeros, -0 and anything beside the number are refused.
pub fn read_number(field: &[u8]) -> Option<i64>
    ensures { Reads field.now result }
{
    if field.len() > MOST_COLUMNS {
        return None;
    }
    candidate(field).filter(|number| holds(field, *number))
}
