// The settings that are a choice: component type and voting, by their codes.
ghost use Rattle.std.specs.Prelude.{◌≡◌, true, false, MatchResult};
ghost use Rattle.sheet.specs.Limits.{allowed};
ghost use Rattle.sheet.specs.Settings.{component_code, voting_code};

use crate::bounds::OutsideLimits;

// The component type: A where all failure modes are well defined and the behaviour under faults is known, else B.
#[derive(Clone, Copy)]
pub enum ComponentType {
    A,
    B,
}

// The voting of a group of like channels, M out of N, by its code; D is with diagnostics.
#[derive(Clone, Copy)]
pub enum VotingKind {
    OneOutOfOne = 1,
    TwoOutOfTwo = 2,
    OneOutOfTwo = 3,
    TwoOutOfThree = 4,
    OneOutOfTwoD = 5,
}

// The code of a component type is that of its letter.
impl TryFrom<u32> for ComponentType {
    type Error = OutsideLimits;

    ghost try_from_gives = { λ code r. MatchResult r (λ t. (allowed 7 code ≡ true) × (component_code t ≡ code)) (λ _. allowed 7 code ≡ false) };

    fn try_from(code: u32) -> Result<ComponentType, OutsideLimits> {
        match char::from_u32(code) {
            Some('A') => Ok(ComponentType::A),
            Some('B') => Ok(ComponentType::B),
            _ => Err(OutsideLimits),
        }
    }
}

impl From<ComponentType> for u32 {
    ghost from_gives = { λ t code. code ≡ component_code t };

    fn from(component_type: ComponentType) -> u32 {
        match component_type {
            ComponentType::A => u32::from('A'),
            ComponentType::B => u32::from('B'),
        }
    }
}

impl TryFrom<u32> for VotingKind {
    type Error = OutsideLimits;

    ghost try_from_gives = { λ code r. MatchResult r (λ v. (allowed 8 code ≡ true) × (voting_code v ≡ code)) (λ _. allowed 8 code ≡ false) };

    fn try_from(code: u32) -> Result<VotingKind, OutsideLimits> {
        match code {
            1 => Ok(VotingKind::OneOutOfOne),
            2 => Ok(VotingKind::TwoOutOfTwo),
            3 => Ok(VotingKind::OneOutOfTwo),
            4 => Ok(VotingKind::TwoOutOfThree),
            5 => Ok(VotingKind::OneOutOfTwoD),
            _ => Err(OutsideLimits),
        }
    }
}

impl From<VotingKind> for u32 {
    ghost from_gives = { λ v code. code ≡ voting_code v };

    fn from(voting: VotingKind) -> u32 {
        voting as u32
    }
}
