// A pool of cents divided by weights.
use crate::refusals::Refusal;
use measures::amounts::Cents;
use measures::fault::Layer;
use rules::sharing::{LargestRemainder, Running, Sharing};
use std::process::Abort;
use std::test::Fail;

// What stands in a list before shares are written to it.
const UNTOUCHED: Cents = Cents(7);

// The shares of a pool by three weights.
fn shares<H: Sharing>(rule: &H, pool: i64, weights: [i64; 3]) -> Result<[i64; 3], Fail> {
    let mut to = [UNTOUCHED; 3];
    rule.share(Cents(pool), &weights, &mut to)?;
    Ok(to.map(|share| share.0))
}

// Checks what each rule makes of a pool.
fn check_shares(
    rt: &impl Abort,
    pool: i64,
    weights: [i64; 3],
    largest_remainder: [i64; 3],
    running: [i64; 3],
) -> Result<(), Fail> {
    assert_eq!(rt;
        shares(&LargestRemainder, pool, weights)?,
        largest_remainder,
        "largest remainder"
    );
    assert_eq!(rt; shares(&Running, pool, weights)?, running, "running");
    Ok(())
}

#[test]
fn each_rule_shares(rt: HostRuntime) -> Result<(), Fail> {
    check_shares(&rt, 100, [1, 1, 1], [34, 33, 33], [33, 33, 34])?;
    check_shares(&rt, -100, [1, 1, 1], [-34, -33, -33], [-33, -33, -34])?;
    check_shares(&rt, 1, [0, 5, 5], [0, 1, 0], [0, 0, 1])?;
    check_shares(&rt, 100, [1, 2, 3], [17, 33, 50], [16, 34, 50])?;
    check_shares(&rt, 0, [1, 2, 3], [0, 0, 0], [0, 0, 0])?;
    // the largest sum of weights, and the largest pool by it
    check_shares(
        &rt,
        4_500_000_000,
        [1_999_999_999, 1, 0],
        [4_499_999_998, 2, 0],
        [4_499_999_997, 3, 0],
    )
}

// Checks that a pool is not shared, and that the list to write to is left as it was.
fn check_not_shared<H: Sharing>(
    rt: &impl Abort,
    name: &str,
    case: &str,
    rule: &H,
    pool: i64,
    weights: &[i64],
    to: &mut [Cents],
    place: usize,
) {
    let answer = rule.share(Cents(pool), weights, to);
    let expected = Refusal::new(13, Layer::Share, place);
    assert_eq!(rt;
        answer.err().map(Refusal::from),
        Some(expected),
        "{name}: {case}"
    );
    for amount in to {
        assert_eq!(rt; *amount, UNTOUCHED, "{name}: {case}");
    }
}

// Every refusal of a sharing rule.
fn check_limits<H: Sharing>(rt: &impl Abort, name: &str, rule: &H) {
    check_not_shared(
        rt,
        name,
        "negative weight",
        rule,
        100,
        &[1, -1, 1],
        &mut [UNTOUCHED; 3],
        2,
    );
    check_not_shared(
        rt,
        name,
        "no weights",
        rule,
        100,
        &[],
        &mut [UNTOUCHED; 0],
        0,
    );
    check_not_shared(
        rt,
        name,
        "65 weights",
        rule,
        100,
        &[1; 65],
        &mut [UNTOUCHED; 65],
        0,
    );
    check_not_shared(
        rt,
        name,
        "all weights 0",
        rule,
        100,
        &[0, 0, 0],
        &mut [UNTOUCHED; 3],
        0,
    );
    check_not_shared(
        rt,
        name,
        "sum of weights",
        rule,
        100,
        &[2_000_000_000, 1],
        &mut [UNTOUCHED; 2],
        0,
    );
    check_not_shared(
        rt,
        name,
        "pool times sum",
        rule,
        4_500_000_001,
        &[2_000_000_000],
        &mut [UNTOUCHED; 1],
        0,
    );
    check_not_shared(
        rt,
        name,
        "a longer list",
        rule,
        100,
        &[1, 1],
        &mut [UNTOUCHED; 3],
        0,
    );
    check_not_shared(
        rt,
        name,
        "a shorter list",
        rule,
        100,
        &[1, 1],
        &mut [UNTOUCHED; 1],
        0,
    );
}

#[test]
fn both_rules_refuse_the_same_pools_and_weights(rt: HostRuntime) {
    check_limits(&rt, "largest remainder", &LargestRemainder);
    check_limits(&rt, "running", &Running);
}
