// The sign of an amount, put back on a size that was computed without it.
ghost use Rattle.std.specs.Prelude.{◌≡◌, ◌^◌, ◌<◌};
ghost use Rattle.measures.specs.Signs.{signed};

// The size with the sign of `amount`.
pub(crate) fn with_sign(amount: i64, size: u64) -> i64
    requires { size < 2 ^ 63 }
    ensures { result ≡ signed amount size }
{
    if amount < 0 {
        -(size as i64)
    } else {
        size as i64
    }
}
