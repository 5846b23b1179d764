// A month's expense, shared by volumes and by peaks.
use crate::refusals::{Refusal, check_refused};
use lines::expense::share_expense;
use measures::amounts::{Cents, Kilowatts, MegawattHours};
use measures::fault::Layer;
use rules::sharing::LargestRemainder;
use std::process::Abort;
use std::test::Fail;

// What stands in a list before shares are written to it.
const UNTOUCHED: Cents = Cents(7);

const VOLUMES: [MegawattHours; 3] = [MegawattHours(1_500), MegawattHours(800), MegawattHours(700)];

const PEAKS: [Kilowatts; 3] = [Kilowatts(570), Kilowatts(300), Kilowatts(130)];

// The shares of an expense by volume and by peak.
fn shares_of(expense: i64) -> Result<([i64; 3], [i64; 3]), Fail> {
    let mut by_volume = [UNTOUCHED; 3];
    let mut by_peak = [UNTOUCHED; 3];
    share_expense(
        &LargestRemainder,
        Cents(expense),
        &VOLUMES,
        &PEAKS,
        &mut by_volume,
        &mut by_peak,
    )?;
    Ok((by_volume.map(|share| share.0), by_peak.map(|share| share.0)))
}

#[test]
fn half_by_volume_and_half_by_peak(rt: HostRuntime) -> Result<(), Fail> {
    let (by_volume, by_peak) = shares_of(1_000_001)?;
    assert_eq!(rt; by_volume, [250_000, 133_334, 116_667]);
    assert_eq!(rt; by_peak, [285_000, 150_000, 65_000]);
    // the largest expense
    let (by_volume, by_peak) = shares_of(4_000_000_000)?;
    assert_eq!(rt; by_volume, [1_000_000_000, 533_333_333, 466_666_667]);
    assert_eq!(rt; by_peak, [1_140_000_000, 600_000_000, 260_000_000]);
    Ok(())
}

// Checks that an expense is not shared over three places, and that both lists are left as they were.
fn check_not_shared(
    rt: &impl Abort,
    case: &str,
    expense: i64,
    volumes: &[MegawattHours],
    peaks: &[Kilowatts],
    expected: Refusal,
) {
    let mut by_volume = [UNTOUCHED; 3];
    let mut by_peak = [UNTOUCHED; 3];
    let answer = share_expense(
        &LargestRemainder,
        Cents(expense),
        volumes,
        peaks,
        &mut by_volume,
        &mut by_peak,
    );
    check_refused(rt, case, answer, expected);
    assert_eq!(rt; by_volume, [UNTOUCHED; 3], "{case}");
    assert_eq!(rt; by_peak, [UNTOUCHED; 3], "{case}");
}

// The refusal of a line's weights.
fn line_refusal(charge_line: u8, place: usize) -> Refusal {
    Refusal::new(13, Layer::Share, place).on_charge_line(charge_line)
}

#[test]
fn a_refused_expense_writes_neither_list(rt: HostRuntime) {
    let negative_volumes = [
        MegawattHours(1_500),
        MegawattHours(-800),
        MegawattHours(700),
    ];
    let negative_peaks = [Kilowatts(570), Kilowatts(300), Kilowatts(-130)];
    let out_of_range = Refusal::new(14, Layer::Share, 0);
    check_not_shared(
        &rt,
        "4,000,000,001 cents",
        4_000_000_001,
        &VOLUMES,
        &PEAKS,
        out_of_range,
    );
    check_not_shared(&rt, "-1 cent", -1, &VOLUMES, &PEAKS, out_of_range);
    check_not_shared(
        &rt,
        "negative peak",
        1_000_001,
        &VOLUMES,
        &negative_peaks,
        line_refusal(22, 3),
    );
    check_not_shared(
        &rt,
        "negative volume",
        1_000_001,
        &negative_volumes,
        &negative_peaks,
        line_refusal(21, 2),
    );
    check_not_shared(
        &rt,
        "two peaks",
        1_000_001,
        &VOLUMES,
        &[Kilowatts(570), Kilowatts(300)],
        line_refusal(22, 0),
    );
    check_not_shared(
        &rt,
        "no peaks",
        1_000_001,
        &VOLUMES,
        &[Kilowatts(0); 3],
        line_refusal(22, 0),
    );
}
