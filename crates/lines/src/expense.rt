// A month's expense is two shared lines: half by month volume, half by peak.
ghost use Rattle.std.specs.Prelude.{◌≡◌, ℕ, ℤ, map};
ghost use Rattle.lines.specs.Expense.{ExpenseAnswered, PeaksChecked, expense_in_range, volume_pool, peak_pool};

use crate::line::{ChargeLine, SharedLine, check_line, share_line, wrong_count};
use measures::amounts::{Cents, Kilowatts, MegawattHours, WeightUnit};
use measures::fault::{Cause, Fault, Layer};
use rules::sharing::Sharing;

// The pool of line 22: half of the expense, rounded down.
pub fn peak_pool(expense: Cents) -> Cents
    ensures { result.0 ≡ peak_pool expense.0 }
{
    Cents(expense.0.div_euclid(2))
}

// The pool of line 21: the rest of the expense.
pub fn volume_pool(expense: Cents) -> Cents
    ensures { result.0 ≡ volume_pool expense.0 }
{
    expense - peak_pool(expense)
}

// A unit of weight by which a part of the expense is shared.
pub trait ExpenseUnit: WeightUnit {
    // The part of an expense that is shared by weights of this unit.
    ghost part: { ℤ → ℤ };

    fn part(whole: Cents) -> Cents
        ensures { result.0 ≡ part whole.0 };
}

impl ExpenseUnit for MegawattHours {
    ghost part = { volume_pool };

    fn part(whole: Cents) -> Cents {
        volume_pool(whole)
    }
}

impl ExpenseUnit for Kilowatts {
    ghost part = { peak_pool };

    fn part(whole: Cents) -> Cents {
        peak_pool(whole)
    }
}

// A line of the expense: its part, by a weight for each participant.
#[derive(Clone, Copy)]
pub struct ExpenseLine<'a, U> {
    pub expense: Cents,
    pub weights: &'a [U],
}

// Line 21: the expense less its half, by each participant's month of load plus generation.
pub type VolumeLine<'a> = ExpenseLine<'a, MegawattHours>;

// Line 22: the rest, by each participant's peak load plus peak generation.
pub type PeakLine<'a> = ExpenseLine<'a, Kilowatts>;

// An impl for each number: the constant of one for all units could be named in no clause, so nothing would pin it.
impl<'a> ChargeLine for ExpenseLine<'a, MegawattHours> {
    const NUMBER: u8 = 21;

    ghost number = { 21 };

    fn line_number() -> u8
        ensures { result ≡ 21 }
    {
        Self::NUMBER
    }
}

impl<'a> ChargeLine for ExpenseLine<'a, Kilowatts> {
    const NUMBER: u8 = 22;

    ghost number = { 22 };

    fn line_number() -> u8
        ensures { result ≡ 22 }
    {
        Self::NUMBER
    }
}

impl<'a, U: ExpenseUnit> SharedLine for ExpenseLine<'a, U>
where
    ExpenseLine<'a, U>: ChargeLine,
{
    type Weight = U;

    ghost pool = { λ line. U.ExpenseUnit.part line.expense.0 };

    ghost weights = { λ line. line.weights.now };

    fn pool(&self) -> Cents {
        U::part(self.expense)
    }

    fn weights(&self) -> &[U] {
        self.weights
    }
}

// 0 to 4,000,000,000 cents.
fn is_in_range(expense: Cents) -> bool
    ensures { result ≡ expense_in_range expense.0 }
{
    0 <= expense.0 && expense.0 <= 4_000_000_000
}

// Whether line 22 can be shared among as many participants as line 21; else the refusal.
fn check_peaks(line: &PeakLine, participants: usize, places: usize) -> Result<(), Fault>
    ensures { PeaksChecked line.now.expense.0 participants (map (λ w. w.0) line.now.weights.now) places result }
{
    if line.weights.len() != participants {
        return Err(wrong_count(PeakLine::NUMBER));
    }
    check_line(line, places)
}

// Shares an expense by month volumes and by peaks: both lists are written, or neither. The four lists are the caller's,
// and those of the two lines may differ in length, which is refused.
pub fn share_expense<H: Sharing>(
    rule: &H,
    expense: Cents,
    volumes: &[MegawattHours],
    peaks: &[Kilowatts],
    by_volume: &mut [Cents],
    by_peak: &mut [Cents],
) -> Result<(), Fault>
    ensures { ExpenseAnswered (H.Sharing.shares rule.now) expense.0 (map (λ w. w.0) volumes.now) (map (λ w. w.0) peaks.now) by_volume.old by_volume.new by_peak.old by_peak.new result }
{
    let volume_line = ExpenseLine {
        expense,
        weights: volumes,
    };
    let peak_line = ExpenseLine {
        expense,
        weights: peaks,
    };
    check_line(&volume_line, by_volume.len())?;
    check_peaks(&peak_line, volumes.len(), by_peak.len())?;
    if !is_in_range(expense) {
        return Err(Fault::new(Cause::ExpenseOutOfRange, Layer::Share, None));
    }
    share_line(&volume_line, rule, by_volume)?;
    share_line(&peak_line, rule, by_peak)
}
