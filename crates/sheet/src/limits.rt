// What may be entered: shares and rows within their limits.
ghost use Rattle.std.specs.Prelude.{◌≡◌, ◌<◌, ◌≤◌, true, false, MatchResult};
ghost use Rattle.std.specs.Option.{option_map};
ghost use Rattle.sheet.specs.Calls.{over_share};
ghost use Rattle.sheet.specs.Limits.{greatest_share};
ghost use Rattle.sheet.specs.Parts.{MakesRow};

use crate::bounds::{OutsideLimits, within};
use crate::fault::Fault;
use crate::place::Place;
use crate::row::Row;
use crate::share::Share;

// The greatest failure rate of a row, in thousandths of a FIT.
const GREATEST_RATE: u32 = 100_000_000;

impl Share {
    // The share of so many thousandths, if it is no more than the whole.
    fn new(thousandths: u32) -> Result<Share, OutsideLimits>
        ensures { MatchResult result (λ s. (thousandths ≤ greatest_share) × (s.thousandths ≡ thousandths)) (λ _. greatest_share < thousandths) }
    {
        Ok(Share {
            thousandths: within::<0, 1000>(thousandths)? as u16,
        })
    }

    // A share that may be blank.
    fn optional(thousandths: Option<u32>) -> Result<Option<Share>, OutsideLimits>
        ensures { MatchResult result (λ s. (over_share thousandths ≡ false) × (option_map (λ x. x.thousandths) s ≡ thousandths)) (λ _. over_share thousandths ≡ true) }
    {
        // a match, since `map` and `transpose` cost more where a row is read from a card
        match thousandths {
            None => Ok(None),
            Some(thousandths) => Share::new(thousandths).map(Some),
        }
    }
}

impl Row {
    // The row of these numbers, if each is within its limits. The four stay apart, since each is
    // judged with a refusal of its own: a struct of numbers that are not judged would only be taken apart here.
    pub(crate) fn new(
        place: u32,
        rate: u32,
        safe: Option<u32>,
        coverage: Option<u32>,
    ) -> Result<Row, Fault>
        ensures { MakesRow place rate safe coverage result }
    {
        let at = Place::new(place).ok_or(Fault::PlaceOver { place, item: None })?;
        let rate = within::<1, GREATEST_RATE>(rate).map_err(|_| Fault::RateOutside { place })?;
        let over = |_| Fault::ShareOver { place };
        Ok(Row {
            place: at,
            rate,
            safe: Share::optional(safe).map_err(over)?,
            coverage: Share::optional(coverage).map_err(over)?,
        })
    }
}
