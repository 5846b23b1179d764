// A month's file: the expense, and each participant's four figures.
ghost use Rattle.std.specs.Prelude.{◌≡◌, suc, ℤ, MatchOption};
ghost use Rattle.lines.specs.declared.month_use.MonthUse.{MonthUse};
ghost use Rattle.expense_text.specs.Months.{AreColumns, IsExpense, IsUse, MonthAnswered, UsesAnswered, layout_fault, no_memory};

use lines::month_use::MonthUse;
use measures::amounts::{Cents, Kilowatts, MegawattHours};
use measures::fault::{Cause, Fault, Layer};
use std::alloc::Global;
use text::fields::read_number;
use text::lines::split_line;

// The expense, and the participants in the order of their numbers.
#[derive(Drop)]
pub struct ExpenseMonth {
    pub expense: Cents,
    pub participants: Vec<MonthUse>,
}

// A line against the layout.
fn against_layout(line: usize) -> Fault
    ensures { result ≡ layout_fault line }
{
    Fault::new(Cause::Layout, Layer::Text, None).on_text_line(line)
}

// The refusal where there is no memory for what is made.
pub(crate) fn no_memory() -> Fault
    ensures { result ≡ no_memory }
{
    Fault::new(Cause::OutOfMemory, Layer::Text, None)
}

// The expense that a line states.
fn read_expense(line: &[u8]) -> Option<Cents>
    ensures { MatchOption result ((e : ℤ) → IsExpense line.now e → ⊥) (λ e. IsExpense line.now e.0) }
{
    match line {
        [b'E', b'X', amount @ ..] => {
            if amount.len() != 12 {
                return None;
            }
            Some(Cents(read_number(amount)?))
        }
        _ => None,
    }
}

// The use that the columns after PA state, where they are those of the participant after so many.
fn read_columns(columns: &[u8], before: usize) -> Option<MonthUse>
    ensures { MatchOption result ((u : MonthUse) → AreColumns columns.now (suc before) u → ⊥) (λ u. AreColumns columns.now (suc before) u) }
{
    if columns.len() != 44 {
        return None;
    }
    let participant = read_number(&columns[0..4])?;
    if participant < 1 || participant as usize - 1 != before {
        return None;
    }
    let load = read_number(&columns[4..14])?;
    let generation = read_number(&columns[14..24])?;
    let peak_load = read_number(&columns[24..34])?;
    let peak_generation = read_number(&columns[34..44])?;
    MonthUse::new(
        MegawattHours(load),
        MegawattHours(generation),
        Kilowatts(peak_load),
        Kilowatts(peak_generation),
    )
}

// The use that a line states, where it is that of the participant after so many.
fn read_use(line: &[u8], before: usize) -> Option<MonthUse>
    ensures { MatchOption result ((u : MonthUse) → IsUse line.now (suc before) u → ⊥) (λ u. IsUse line.now (suc before) u) }
{
    match line {
        [b'P', b'A', columns @ ..] => read_columns(columns, before),
        _ => None,
    }
}

// The participants' lines, from the second line of the file on.
fn read_uses(heap: Global, input: &[u8]) -> Result<Vec<MonthUse>, Fault>
    ensures { UsesAnswered input.now result }
{
    let mut participants = Vec::new(heap);
    let mut rest = input;
    while !rest.is_empty() {
        let before = participants.len();
        let refusal = against_layout(before + 2);
        let (line, more) = split_line(rest).ok_or(refusal)?;
        let month_use = read_use(line, before).ok_or(refusal)?;
        participants.push(month_use).map_err(|_| no_memory())?;
        rest = more;
    }
    Ok(participants)
}

// The month that a file states.
pub fn read_month(heap: Global, input: &[u8]) -> Result<ExpenseMonth, Fault>
    ensures { MonthAnswered input.now result }
{
    let refusal = against_layout(1);
    let (line, rest) = split_line(input).ok_or(refusal)?;
    let expense = read_expense(line).ok_or(refusal)?;
    let participants = read_uses(heap, rest)?;
    Ok(ExpenseMonth {
        expense,
        participants,
    })
}
