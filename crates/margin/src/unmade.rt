// A rule that was not made.
ghost use Rattle.std.specs.Prelude.{◌≡◌, ◌<◌, ◌≤◌, Ok, Err};
ghost use Rattle.margin.specs.Making.{Returned};

use refusals::Refusal;

// Why, and what was handed in.
#[derive(Drop)]
pub struct Unmade<T> {
    pub refusal: Refusal,
    pub given: T,
}

impl<T: Drop> From<Unmade<T>> for Refusal {
    ghost from_gives = { λ unmade refusal. refusal ≡ unmade.refusal };

    fn from(unmade: Unmade<T>) -> Refusal {
        unmade.refusal
    }
}

// What is handed in for a rule, unless the number among it is above its limit.
pub(crate) fn at_most<T>(number: u64, limit: u64, given: T) -> Result<T, Unmade<T>>
    ensures { elim result [ Ok back ↦ (number ≤ limit) × (back ≡ given) | Err unmade ↦ (limit < number) × Returned given unmade ] }
{
    if number > limit {
        return Err(Unmade {
            refusal: Refusal::OutOfLimits(1),
            given,
        });
    }
    Ok(given)
}
