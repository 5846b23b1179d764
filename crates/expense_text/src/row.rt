// A row of a page: texts at the right end of their columns. Formats with widths would say the same in twice the time.
ghost use Rattle.std.specs.Prelude.{◌≡◌, ◌+◌, ◌≤◌, ◌++◌, length};
ghost use Rattle.text.specs.Fields.{right};
ghost use Rattle.expense_text.specs.declared.row.TheConstants.{LONGEST_ROW};

use arrayvec::ArrayString;

// Room for three columns, each as long as its text can be.
pub(crate) const LONGEST_ROW: usize = 128;

// Puts a text at the right end of so many columns. One that is longer stands whole.
pub(crate) fn push_column(row: &mut ArrayString<LONGEST_ROW>, width: usize, text: &str)
    requires { length row.old.bytes + (width + length text.now) ≤ LONGEST_ROW }
    ensures { row.new.bytes ≡ row.old.bytes ++ right width text.now }
{
    for _ in text.len()..width {
        row.push_str(" ");
    }
    row.push_str(text);
}
