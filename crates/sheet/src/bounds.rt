// Numbers within limits.
ghost use Rattle.std.specs.Prelude.{◌≡◌, ◌≤◌, MatchResult};

// A number that is outside the limits of what it is to stand for.
#[derive(Clone, Copy)]
pub struct OutsideLimits;

// The number, if it is no less than the least and no more than the most.
pub(crate) fn within<const LEAST: u32, const MOST: u32>(number: u32) -> Result<u32, OutsideLimits>
    ensures { MatchResult result (λ n. (n ≡ number) × (LEAST ≤ number) × (number ≤ MOST)) (λ _. LEAST ≤ number → number ≤ MOST → ⊥) }
{
    if (LEAST..=MOST).contains(&number) {
        Ok(number)
    } else {
        Err(OutsideLimits)
    }
}
