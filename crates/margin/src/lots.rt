// A lot's price.
ghost use Rattle.std.specs.Prelude.{◌≡◌, ◌*◌, ◌^◌, ◌≤◌};

// The price of a unit times the units, in fen.
pub(crate) fn lot_price(price: u32, units: u32) -> u64
    requires { (price ≤ 99999999) × (units ≤ 1000) }
    ensures fen { result ≡ price * units }
    ensures most { result ≤ 10 ^ 11 }
{
    u64::from(price) * u64::from(units)
}
