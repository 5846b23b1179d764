// Thousandths of a cent to cents.
use measures::amounts::Thousandths;
use rules::rounding::{HalfAwayFromZero, HalfToEven, Rounding, TowardZero};

// Thousandths, and the cents that each rule answers.
#[derive(Clone, Copy)]
struct Case {
    thousandths: i64,
    half_away: i64,
    half_even: i64,
    toward_zero: i64,
}

fn rounded(thousandths: i64, half_away: i64, half_even: i64, toward_zero: i64) -> Case {
    Case {
        thousandths,
        half_away,
        half_even,
        toward_zero,
    }
}

#[test]
fn each_rule_rounds(rt: HostRuntime) {
    let table = [
        rounded(0, 0, 0, 0),
        rounded(500, 1, 0, 0),
        rounded(-500, -1, 0, 0),
        rounded(1_500, 2, 2, 1),
        rounded(-1_499, -1, -1, -1),
        rounded(2_500, 3, 2, 2),
        rounded(2_501, 3, 3, 2),
        rounded(-2_999, -3, -3, -2),
        // the ends of the range
        rounded(
            i64::MAX,
            9_223_372_036_854_776,
            9_223_372_036_854_776,
            9_223_372_036_854_775,
        ),
        rounded(
            i64::MIN,
            -9_223_372_036_854_776,
            -9_223_372_036_854_776,
            -9_223_372_036_854_775,
        ),
    ];
    for row in table {
        let asked = row.thousandths;
        let x = Thousandths(asked);
        assert_eq!(rt; HalfAwayFromZero.round(x).0, row.half_away, "{}", asked);
        assert_eq!(rt; HalfToEven.round(x).0, row.half_even, "{}", asked);
        assert_eq!(rt; TowardZero.round(x).0, row.toward_zero, "{}", asked);
    }
}
