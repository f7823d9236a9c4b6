// The tests that the rows of several calls share.
ghost use Rattle.std.specs.Prelude.{◌≡◌, ◌≤◌};
ghost use Rattle.session.specs.Limits.{outside, bad_price, ranked};

use refusals::Refusal;

// Below the least or above the most.
pub fn outside(least: u64, most: u64, value: u64) -> bool
    ensures { result ≡ outside least most value }
{
    value < least || value > most
}

// A price outside its limits or off its contract's tick.
pub fn bad_price(tick: u64, price: u64) -> bool
    requires { 1 ≤ tick }
    ensures { result ≡ bad_price tick price }
{
    outside(1, 99_999_999, price) || price % tick != 0
}

// A field outside its limits is refused by its rank.
pub fn check_limits(rank: u64, least: u64, most: u64, value: u64) -> Result<(), Refusal>
    ensures { result ≡ ranked rank (outside least most value) }
{
    if outside(least, most, value) {
        return Err(Refusal::OutOfLimits(rank));
    }
    Ok(())
}

// So is a bad price.
pub fn check_price(rank: u64, tick: u64, price: u64) -> Result<(), Refusal>
    requires { 1 ≤ tick }
    ensures { result ≡ ranked rank (bad_price tick price) }
{
    if bad_price(tick, price) {
        return Err(Refusal::OutOfLimits(rank));
    }
    Ok(())
}
