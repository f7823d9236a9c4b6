// The two parties of a contract, the two sides of a holding, and which party of an option gets which side of its future.
ghost use Rattle.std.specs.Prelude.{◌≡◌};
ghost use Rattle.kinds.specs.Sides.{side_entered};

use margin::rule::Right;

#[derive(Clone, Copy)]
pub enum Party {
    Buyer,
    Seller,
}

#[derive(Clone, Copy)]
pub enum Side {
    Long,
    Short,
}

// The side on which a party of an option enters the future at its exercise.
pub fn side_entered(right: Right, party: Party) -> Side
    ensures { result ≡ side_entered right party }
{
    match (right, party) {
        (Right::Call, Party::Buyer) => Side::Long,
        (Right::Call, Party::Seller) => Side::Short,
        (Right::Put, Party::Buyer) => Side::Short,
        (Right::Put, Party::Seller) => Side::Long,
    }
}
