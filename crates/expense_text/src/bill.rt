// The bill of a month's expense: each participant's lines 21 and 22, and their sums.
ghost use Rattle.std.specs.Prelude.{◌≡◌, ◌≤◌, ◌++◌, length, None, Some, MatchResult, map, OnOk, IfOk, string_bytes};
ghost use Rattle.rules.specs.declared.sharing.TheConstants.{MOST_WEIGHTS};
ghost use Rattle.lines.specs.Expense.{ExpenseShared, peak_pool, volume_pool};
ghost use Rattle.rules.specs.Sharing.{amounts, total};
ghost use Rattle.expense_text.specs.Bills.{BillAnswered, bill_refusal, peak_weight, peaks_of, volume_weight, volumes_of};
ghost use Rattle.expense_text.specs.Layouts.{laid_amount, laid_bill, laid_charge, laid_line_sum, laid_row, laid_rows, laid_sums, laid_whole_sum};

use crate::month::{ExpenseMonth, no_memory};
use crate::row::{LONGEST_ROW, push_column};
use arrayvec::{ArrayString, ArrayVec};
use itoa::Buffer;
use lines::expense::{PeakLine, VolumeLine, peak_pool, share_expense, volume_pool};
use lines::line::{ChargeLine, wrong_count};
use lines::month_use::MonthUse;
use measures::amounts::{Cents, Kilowatts, MegawattHours};
use measures::fault::Fault;
use rules::sharing::{MOST_WEIGHTS, Sharing};
use std::alloc::{AllocError, Global};
use text::dollars::Dollars;

// The bytes of a row, and the rows that are no participant's: the header and the sums.
const ROW: usize = 26;

const OTHER_ROWS: usize = 4;

// The end of a row: an amount and the line feed.
fn push_amount(row: &mut ArrayString<LONGEST_ROW>, amount: Cents)
    requires { length row.old.bytes ≤ 80 }
    ensures { row.new.bytes ≡ row.old.bytes ++ laid_amount amount.0 }
{
    push_column(row, 15, Dollars(amount).text().as_str());
    row.push_str("\n");
}

// The end of a row: a line's number and its amount.
fn push_charge(row: &mut ArrayString<LONGEST_ROW>, line: u8, amount: Cents)
    requires { length row.old.bytes ≤ 50 }
    ensures { row.new.bytes ≡ row.old.bytes ++ laid_charge line amount.0 }
{
    let mut digits = Buffer::new();
    push_column(row, 6, digits.format(line));
    push_amount(row, amount);
}

// A participant's row in a line.
fn write_charge(
    page: &mut String,
    participant: usize,
    line: u8,
    amount: Cents,
) -> Result<(), AllocError>
    ensures { OnOk result (string_bytes page.new ≡ string_bytes page.old ++ laid_row participant line amount.0) }
{
    let mut digits = Buffer::new();
    let mut row = ArrayString::new();
    push_column(&mut row, 4, digits.format(participant));
    push_charge(&mut row, line, amount);
    page.push_str(row.as_str())
}

// The row of a line's sum.
fn write_line_sum(page: &mut String, line: u8, amount: Cents) -> Result<(), AllocError>
    ensures { OnOk result (string_bytes page.new ≡ string_bytes page.old ++ laid_line_sum line amount.0) }
{
    let mut row = ArrayString::new();
    row.push_str("SUM ");
    push_charge(&mut row, line, amount);
    page.push_str(row.as_str())
}

// The row of the sum of both lines.
fn write_whole_sum(page: &mut String, amount: Cents) -> Result<(), AllocError>
    ensures { OnOk result (string_bytes page.new ≡ string_bytes page.old ++ laid_whole_sum amount.0) }
{
    let mut row = ArrayString::new();
    row.push_str("SUM       ");
    push_amount(&mut row, amount);
    page.push_str(row.as_str())
}

// The sums of the two lines, and of both.
fn write_sums(page: &mut String, expense: Cents) -> Result<(), AllocError>
    ensures { OnOk result (string_bytes page.new ≡ string_bytes page.old ++ laid_sums (volume_pool expense.0) (peak_pool expense.0)) }
{
    write_line_sum(page, VolumeLine::NUMBER, volume_pool(expense))?;
    write_line_sum(page, PeakLine::NUMBER, peak_pool(expense))?;
    write_whole_sum(page, expense)
}

// Each participant's weight in line 21 and in line 22. Two lists, as the expense's sharing takes them apart. They stand in
// the value itself, so that sharing an expense never wants memory.
#[derive(Drop)]
struct UseWeights {
    volumes: ArrayVec<MegawattHours, MOST_WEIGHTS>,
    peaks: ArrayVec<Kilowatts, MOST_WEIGHTS>,
}

impl UseWeights {
    fn of(uses: &[MonthUse]) -> UseWeights
        requires { length uses.now ≤ MOST_WEIGHTS }
        ensures { (result.volumes.items ≡ map volume_weight uses.now) × (result.peaks.items ≡ map peak_weight uses.now) }
    {
        let mut volumes = ArrayVec::new();
        let mut peaks = ArrayVec::new();
        for month_use in uses {
            volumes.push(month_use.volume());
            peaks.push(month_use.peak());
        }
        UseWeights { volumes, peaks }
    }
}

// No cents yet, for each of so many participants.
fn no_shares(participants: usize) -> ArrayVec<Cents, MOST_WEIGHTS>
    requires { participants ≤ MOST_WEIGHTS }
    ensures { length result.items ≡ participants }
{
    let mut shares = ArrayVec::from([Cents(0); MOST_WEIGHTS]);
    shares.truncate(participants);
    shares
}

// Each participant's shares of an expense; those of a line add up to its pool. Two lists, as the expense's sharing writes
// them apart.
#[derive(Drop)]
struct ExpenseShares {
    expense: Cents,
    by_volume: ArrayVec<Cents, MOST_WEIGHTS>,
    by_peak: ArrayVec<Cents, MOST_WEIGHTS>,
    ghost volumes_add: { total (amounts by_volume.items) ≡ volume_pool expense.0 },
    ghost peaks_add: { total (amounts by_peak.items) ≡ peak_pool expense.0 },
}

impl ExpenseShares {
    // Shares an expense by the participants' use.
    fn by_use<H: Sharing>(
        rule: &H,
        expense: Cents,
        uses: &[MonthUse],
    ) -> Result<ExpenseShares, Fault>
        requires { length uses.now ≤ MOST_WEIGHTS }
        ensures { MatchResult result (λ shares. (shares.expense ≡ expense) × (bill_refusal expense.0 uses.now ≡ None) × ExpenseShared (H.Sharing.shares rule.now) expense.0 (volumes_of uses.now) (peaks_of uses.now) (amounts shares.by_volume.items) (amounts shares.by_peak.items)) (λ f. bill_refusal expense.0 uses.now ≡ Some f) }
    {
        let weights = UseWeights::of(uses);
        let mut by_volume = no_shares(uses.len());
        let mut by_peak = no_shares(uses.len());
        share_expense(
            rule,
            expense,
            &weights.volumes,
            &weights.peaks,
            &mut by_volume,
            &mut by_peak,
        )?;
        Ok(ExpenseShares {
            expense,
            by_volume,
            by_peak,
        })
    }

    // The rows of all participants.
    fn write_participants(&self, page: &mut String) -> Result<(), AllocError>
        ensures { OnOk result (string_bytes page.new ≡ string_bytes page.old ++ laid_rows self.now.by_volume.items self.now.by_peak.items) }
    {
        for (i, (by_volume, by_peak)) in self.by_volume.iter().zip(&self.by_peak).enumerate() {
            write_charge(page, i + 1, VolumeLine::NUMBER, *by_volume)?;
            write_charge(page, i + 1, PeakLine::NUMBER, *by_peak)?;
        }
        Ok(())
    }

    // The whole bill; the shares add up to their pools, so the pools are the sums.
    fn bill(&self, heap: Global) -> Result<String, AllocError>
        ensures { IfOk result (λ page. string_bytes page ≡ laid_bill self.now.by_volume.items self.now.by_peak.items) }
    {
        let mut page = String::with_capacity(heap, (2 * self.by_volume.len() + OTHER_ROWS) * ROW)?;
        page.push_str("PART  LINE         AMOUNT\n")?;
        self.write_participants(&mut page)?;
        write_sums(&mut page, self.expense)?;
        Ok(page)
    }
}

// The bill of a month, its two lines shared by a sharing rule.
pub fn expense_bill<H: Sharing>(
    heap: Global,
    rule: &H,
    month: &ExpenseMonth,
) -> Result<String, Fault>
    ensures { BillAnswered (H.Sharing.shares rule.now) month.now.expense.0 month.now.participants.items result }
{
    // More than a pool is shared by are refused before any is looked at.
    if month.participants.len() > MOST_WEIGHTS {
        return Err(wrong_count(VolumeLine::NUMBER));
    }
    let shares = ExpenseShares::by_use(rule, month.expense, &month.participants)?;
    // What `map_err` answers is not handed on as it is: the proof of that did not close.
    let page = shares.bill(heap).map_err(|_| no_memory())?;
    Ok(page)
}
