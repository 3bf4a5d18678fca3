// The fields of a place.
ghost use Rattle.std.specs.Prelude.{◌≡◌, ◌≤◌, MatchResult};
ghost use Rattle.sheet.specs.Settings.{field_number};

use crate::bounds::OutsideLimits;

// The eight fields of a place, numbered from 1 in this order.
#[derive(Clone, Copy)]
pub enum Field {
    ProofTestInterval,
    Mttr,
    Mrt,
    Beta,
    BetaD,
    K,
    ComponentType,
    Voting,
}

impl TryFrom<u32> for Field {
    type Error = OutsideLimits;

    ghost try_from_gives = { λ n r. MatchResult r (λ f. (field_number f ≡ n) × (1 ≤ n) × (n ≤ 8)) (λ _. 1 ≤ n → n ≤ 8 → ⊥) };

    fn try_from(number: u32) -> Result<Field, OutsideLimits> {
        match number {
            1 => Ok(Field::ProofTestInterval),
            2 => Ok(Field::Mttr),
            3 => Ok(Field::Mrt),
            4 => Ok(Field::Beta),
            5 => Ok(Field::BetaD),
            6 => Ok(Field::K),
            7 => Ok(Field::ComponentType),
            8 => Ok(Field::Voting),
            _ => Err(OutsideLimits),
        }
    }
}
