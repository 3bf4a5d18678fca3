// The failure rates of a place, its safe failure fraction and its diagnostic coverage.
ghost use Rattle.std.specs.Prelude.{◌≡◌, ℕ, ◌+◌, ◌*◌, ◌/◌, ◌<◌, ◌≤◌, IfSome, Some, Result, MatchOption, map};
ghost use Rattle.sheet.specs.Holds.{row_of};
ghost use Rattle.sheet.specs.Model.{Model};
ghost use Rattle.sheet.specs.declared.fault.Refusal.{Refusal};
ghost use Rattle.sheet.specs.declared.show.Percentages.{Percentages};
ghost use Rattle.sheet.specs.Kept.{FirstBlank, RowsKept, SumsKept};
ghost use Rattle.sheet.specs.Limits.{most_rows};
ghost use Rattle.sheet.specs.Rates.{sums, Bounded, failure_rate, first_blank};
ghost use Rattle.sheet.specs.Refusals.{answer_of};
ghost use Rattle.sheet.specs.Rounding.{Rounded};
ghost use Rattle.sheet.specs.Shown.{Shows, ShowsSums};
ghost use Rattle.sheet.specs.Sound.{Sound};

use crate::fault::Fault;
use crate::place::Place;
use crate::place_sums::PlaceSums;
use crate::rates::RateSums;
use crate::rows::Rows;
use crate::sheets::Sheet;

// In tenths of a per cent. A place with no dangerous failures has no diagnostic coverage.
#[derive(Clone, Copy, PartialEq, Eq, Debug)]
pub struct Percentages {
    pub sff: u32,
    pub diagnostic_coverage: Option<u32>,
}

// A part of a whole in tenths of a per cent, with half a tenth added and the rest cut off.
fn quotient(part: u64, whole: u64) -> u128
    requires { 0 < whole }
    ensures { result ≡ (2000 * part + whole) / (2 * whole) }
{
    (2000 * u128::from(part) + u128::from(whole)) / (2 * u128::from(whole))
}

// A part of a whole in tenths of a per cent, a half going up; none where the whole is nothing.
fn tenths(part: u64, whole: u64) -> Option<u32>
    requires { part ≤ whole }
    ensures { MatchOption result (whole ≡ 0) (λ t. (0 < whole) × Rounded part whole t) }
{
    if whole == 0 {
        return None;
    }
    let t = quotient(part, whole);
    Some(t as u32)
}

impl PlaceSums {
    // The percentages of these sums, or none where nothing is summed.
    fn percentages(self) -> Option<Percentages>
        ensures { MatchOption result (failure_rate self.sums ≡ 0) (λ a. (0 < failure_rate self.sums) × ShowsSums self.sums a) }
    {
        let sums = self.sums;
        let dangerous = sums.dangerous_detected + sums.dangerous_undetected;
        Some(Percentages {
            sff: tenths(sums.safe + sums.dangerous_detected, sums.safe + dangerous)?,
            diagnostic_coverage: tenths(sums.dangerous_detected, dangerous),
        })
    }
}

impl Rows {
    // The percentages of a place of a sheet with these rows.
    fn percentages(&self, place: u32) -> Result<Percentages, Fault>
        ensures { (m : Model) → m.rows ≡ map row_of self.now → Shows m place (answer_of result) }
    {
        let at = Place::new(place).ok_or(Fault::PlaceOver { place, item: None })?;
        let sums = self
            .sums(at)
            .map_err(|row| Fault::ShareBlank { place, row })?;
        // Every row has a rate, so that where nothing is summed no row stands.
        sums.percentages().ok_or(Fault::RowsMissing { place })
    }
}

impl Sheet {
    // The four rate sums of a place, or none where a share of one of its rows is blank.
    pub fn rate_sums(&self, place: Place) -> Option<RateSums>
        ensures value { result ≡ sums self.now place.number }
        ensures bounded { IfSome result (λ x. Bounded most_rows x) }
        ensures kept { IfSome result (λ x. SumsKept self.now place.number x) }
        ensures sound { Sound self.now }
    {
        Some(self.rows.sums(place).ok()?.sums)
    }

    // The safe failure fraction and the diagnostic coverage of a place.
    pub fn show(&self, place: u32) -> Result<Percentages, Fault>
        ensures answer { Shows self.now place (answer_of result) }
        ensures no_other { (a : Result Percentages Refusal) → Shows self.now place a → a ≡ answer_of result }
        ensures blank_row { (i : ℕ) → first_blank place self.now.rows ≡ Some i → FirstBlank self.now.rows place i }
        ensures rows_kept { RowsKept self.now }
        ensures sound { Sound self.now }
    {
        self.rows.percentages(place)
    }
}
