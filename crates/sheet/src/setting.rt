// A setting: one field of a place, with a value that it may hold or blank.
ghost use Rattle.std.specs.Prelude.{◌≡◌, true, false, MatchResult};
ghost use Rattle.sheet.specs.Limits.{allowed, allowed_or_blank};
ghost use Rattle.sheet.specs.Settings.{field_number, setting_number, setting_value};

use crate::bounds::{OutsideLimits, within};
use crate::choice::{ComponentType, VotingKind};
use crate::field::Field;

// A field with a value that it may hold, or blank.
#[derive(Clone, Copy)]
pub enum Setting {
    ProofTestInterval(Option<u32>),
    Mttr(Option<u16>),
    Mrt(Option<u16>),
    Beta(Option<u16>),
    BetaD(Option<u16>),
    K(Option<u16>),
    ComponentType(Option<ComponentType>),
    Voting(Option<VotingKind>),
}

// A proof test interval in hours.
fn interval(value: u32) -> Result<u32, OutsideLimits>
    ensures { MatchResult result (λ v. (allowed 1 value ≡ true) × (v ≡ value)) (λ _. allowed 1 value ≡ false) }
{
    within::<1, 200_000>(value)
}

// Hours of repair, or ten-thousandths.
fn up_to_10_000(value: u32) -> Result<u16, OutsideLimits>
    ensures { MatchResult result (λ v. (allowed 2 value ≡ true) × (v ≡ value)) (λ _. allowed 2 value ≡ false) }
{
    Ok(within::<0, 10_000>(value)? as u16)
}

impl Setting {
    // The field with that value, where it may hold it, or blank.
    pub(crate) fn new(field: Field, value: Option<u32>) -> Result<Setting, OutsideLimits>
        ensures { MatchResult result (λ s. (allowed_or_blank (field_number field) value ≡ true) × (setting_number s ≡ field_number field) × (setting_value s ≡ value)) (λ _. allowed_or_blank (field_number field) value ≡ false) }
    {
        Ok(match field {
            Field::ProofTestInterval => Setting::ProofTestInterval(
                value.map(interval).transpose()?,
            ),
            Field::ComponentType => Setting::ComponentType(
                value.map(ComponentType::try_from).transpose()?,
            ),
            Field::Voting => Setting::Voting(value.map(VotingKind::try_from).transpose()?),
            // judged once for the five, which is quicker than an arm for each
            _ => {
                let value = value.map(up_to_10_000).transpose()?;
                match field {
                    Field::Mttr => Setting::Mttr(value),
                    Field::Mrt => Setting::Mrt(value),
                    Field::Beta => Setting::Beta(value),
                    Field::BetaD => Setting::BetaD(value),
                    _ => Setting::K(value),
                }
            }
        })
    }
}
