// The row that a refusal prints.
ghost use Rattle.std.specs.Prelude.{◌≡◌, ◌≤◌, ◌++◌, length, IfOk, string_bytes};
ghost use Rattle.expense_text.specs.Refusals.{RowRead, fault_row, line_field};

use crate::row::{LONGEST_ROW, push_column};
use arrayvec::ArrayString;
use itoa::Buffer;
use measures::fault::Fault;
use std::alloc::{AllocError, Global};

// The text line; one of more than six digits is left blank.
fn push_text_line(row: &mut ArrayString<LONGEST_ROW>, line: usize)
    requires { length row.old.bytes ≤ 4 }
    ensures { row.new.bytes ≡ row.old.bytes ++ line_field line }
{
    if line <= 999_999 {
        let mut digits = Buffer::new();
        push_column(row, 6, digits.format(line));
    } else {
        push_column(row, 6, "");
    }
}

// ERR, the text line, the refusal's number and the layer. Its numbers, in their columns, read as these numbers.
pub fn refusal_row(heap: Global, fault: &Fault) -> Result<String, AllocError>
    ensures row { IfOk result (λ page. string_bytes page ≡ fault_row fault.now) }
    ensures reads { RowRead fault.now }
{
    let mut digits = Buffer::new();
    let mut row = ArrayString::new();
    row.push_str("ERR ");
    push_text_line(&mut row, fault.text_line.unwrap_or(0));
    push_column(&mut row, 15, digits.format(fault.cause.number()));
    push_column(&mut row, 15, fault.layer.name());
    row.push_str("\n");
    String::from_str(heap, row.as_str())
}
