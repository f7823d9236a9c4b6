// A kind of contract by one meaning and one law.
ghost use Rattle.std.specs.Prelude.{◌≡◌, ◌^◌, ◌≤◌};
ghost use Rattle.kinds.specs.Kinds.{Meaning, Lawful, Within};
ghost use Rattle.margin.specs.declared.rule.Right.{Right};

use crate::terms::{Holding, OptionTerms, Style};
use margin::rule::Right;

// A kind has its own record of terms. Its sums are in fen a lot, its prices in fen a unit.
pub trait ContractKind {
    type Terms: Copy;

    ghost meaning: { Meaning Self.Terms };

    // the tick of its prices
    fn tick(terms: Self::Terms) -> u32
        ensures { result ≡ meaning.tick terms };

    // the units of a lot, where the future that it is, or is on, has `units`
    fn lot_units(terms: Self::Terms, units: u32) -> u32
        ensures { result ≡ meaning.units terms units };

    // what the buyer of a lot gets at a price while another is carried, opening or closing; the seller gets the opposite
    fn entry(units: u32, price: u32, carried: u32) -> i128
        requires { Within units price carried }
        ensures { result ≡ meaning.sums.entry units price carried };

    // what a long lot gets when the carried price moves; a short lot gets the opposite
    fn mark(units: u32, from: u32, to: u32) -> i128
        requires { Within units from to }
        ensures { result ≡ meaning.sums.mark units from to };

    // the margin of a whole holding at a margin rate a lot
    fn margin(rate: u64, holding: Holding) -> u128
        ensures margin { result ≡ meaning.sums.margin rate holding }
        ensures bound { result ≤ 2 ^ 97 };

    ghost lawful: { Lawful meaning.sums };
}

// An option kind is a contract kind with a right, and with a strike, a last day and a style among its terms.
pub trait OptionKind: ContractKind<Terms = OptionTerms> {
    ghost given: { Right };

    fn right() -> Right
        ensures { result ≡ given };

    fn strike(terms: OptionTerms) -> u32
        ensures { result ≡ terms.strike }
    {
        terms.strike
    }

    fn last_day(terms: OptionTerms) -> u32
        ensures { result ≡ terms.last_day }
    {
        terms.last_day
    }

    fn style(terms: OptionTerms) -> Style
        ensures { result ≡ terms.style }
    {
        terms.style
    }
}
