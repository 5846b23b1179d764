// A month's file and its bill.
use crate::refusals::{Refusal, check_refused};
use expense_text::file::bill_of_file;
use expense_text::refusal::refusal_row;
use measures::fault::{Cause, Fault, Layer};
use rules::sharing::LargestRemainder;
use std::alloc::Global;
use std::process::Abort;
use std::test::Fail;

// 51 cents by volumes 15 and 30, and 50 cents by peaks 3 and 1.
const FILE: &[u8] = b"\
EX         101
PA   1        10         5         3         0
PA   2        20        10         0         1
";

const BILL: &[u8] = b"\
PART  LINE         AMOUNT
   1    21           0.17
   1    22           0.38
   2    21           0.34
   2    22           0.12
SUM     21           0.51
SUM     22           0.50
SUM                  1.01
";

const REFUSAL: &[u8] = b"\
ERR      3             13          SHARE
";

const WRONG_SECOND_LINE: &[u8] = b"\
EX         101
PA   2        10         5         3         0
PA   1        20        10         0         1
";

const UNTERMINATED: &[u8] = b"\
EX         101
PA   1        10         5         3         0
PA   2        20        10         0         1";

const NEGATIVE_VOLUME: &[u8] = b"\
EX         101
PA   1        10         5        -3         0
PA   2        20       -21         0         1
";

const NEGATIVE_PEAK: &[u8] = b"\
EX         101
PA   1        10         5        -3         0
PA   2        20       -20         0         1
";

const LARGE_EXPENSE: &[u8] = b"\
EX  4000000001
PA   1        10         5         3         0
PA   2        20        10         0         1
";

#[test]
fn bills_and_refusals_are_printed_byte_for_byte(rt: HostRuntime) -> Result<(), Fail> {
    let bill = bill_of_file(rt.alloc(), &LargestRemainder, FILE)?;
    assert_eq!(rt; bill.as_bytes(), BILL);
    let fault = Fault::new(Cause::SharingLimits, Layer::Share, Some(2)).on_text_line(3);
    let row = refusal_row(rt.alloc(), &fault)?;
    assert_eq!(rt; row.as_bytes(), REFUSAL);
    Ok(())
}

// Checks that a file is not billed.
fn check_not_billed(rt: &impl Abort, case: &str, heap: Global, input: &[u8], expected: Refusal) {
    check_refused(
        rt,
        case,
        bill_of_file(heap, &LargestRemainder, input),
        expected,
    );
}

// The refusal of a line against the layout; line 0 stands for the whole file.
fn layout_refusal(text_line: usize) -> Refusal {
    Refusal::new(2, Layer::Text, 0).on_text_line(text_line)
}

#[test]
fn a_file_against_the_layout_names_its_first_wrong_line(rt: HostRuntime) -> Result<(), Fail> {
    let heap = rt.alloc();
    check_not_billed(&rt, "empty", heap, b"", layout_refusal(1));
    check_not_billed(
        &rt,
        "leading zero",
        heap,
        b"EX        0101\n",
        layout_refusal(1),
    );
    check_not_billed(
        &rt,
        "participant 2 first",
        heap,
        WRONG_SECOND_LINE,
        layout_refusal(2),
    );
    check_not_billed(
        &rt,
        "no line feed at the end",
        heap,
        UNTERMINATED,
        layout_refusal(3),
    );
    let longest = vec![in heap; b' '; 65_536]?;
    check_not_billed(
        &rt,
        "65,536 bytes",
        heap,
        longest.as_slice(),
        layout_refusal(1),
    );
    let too_long = vec![in heap; b' '; 65_537]?;
    check_not_billed(
        &rt,
        "65,537 bytes",
        heap,
        too_long.as_slice(),
        layout_refusal(0),
    );
    Ok(())
}

#[test]
fn a_month_that_is_not_billed_names_the_line_at_fault(rt: HostRuntime) {
    let heap = rt.alloc();
    let volume = Refusal::new(13, Layer::Share, 2)
        .on_charge_line(21)
        .on_text_line(3);
    check_not_billed(&rt, "negative volume", heap, NEGATIVE_VOLUME, volume);
    let peak = Refusal::new(13, Layer::Share, 1)
        .on_charge_line(22)
        .on_text_line(2);
    check_not_billed(&rt, "negative peak", heap, NEGATIVE_PEAK, peak);
    let expense = Refusal::new(14, Layer::Share, 0).on_text_line(1);
    check_not_billed(&rt, "large expense", heap, LARGE_EXPENSE, expense);
    let participants = Refusal::new(13, Layer::Share, 0)
        .on_charge_line(21)
        .on_text_line(1);
    check_not_billed(
        &rt,
        "no participants",
        heap,
        b"EX         101\n",
        participants,
    );
}
