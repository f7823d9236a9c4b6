// The right that an option gives, as a type.
ghost use Rattle.std.specs.Prelude.{◌≡◌};
ghost use Rattle.margin.specs.declared.rule.Right.{Right};
ghost use Rattle.margin.specs.declared.rule.Right.TheVariants.{Call, Put};

use margin::rule::Right;

// What an option's type says of its right.
pub trait RightKind {
    ghost given: { Right };

    fn right() -> Right
        ensures { result ≡ given };
}

// To buy the future at the strike.
#[derive(Clone, Copy)]
pub struct CallRight;

// To sell it.
#[derive(Clone, Copy)]
pub struct PutRight;

impl RightKind for CallRight {
    ghost given = { Call };

    fn right() -> Right {
        Right::Call
    }
}

impl RightKind for PutRight {
    ghost given = { Put };

    fn right() -> Right {
        Right::Put
    }
}
