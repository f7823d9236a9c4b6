// Lots at a margin rate.
ghost use Rattle.std.specs.Prelude.{◌≡◌, ◌*◌, ◌^◌, ◌≤◌};

// Lots times a margin rate a lot, in fen: wider than the price of a lot, which has its own limits. The bound is said again by each
// function that passes a margin on, since a sum is a plain number.
pub fn at_rate(lots: u64, rate: u64) -> u128
    requires { lots ≤ 2 ^ 33 }
    ensures sum { result ≡ lots * rate }
    ensures bound { result ≤ 2 ^ 97 }
{
    u128::from(lots) * u128::from(rate)
}
