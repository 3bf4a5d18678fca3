// How a row's failure rate splits, and the sums of the rows of a place.
ghost use Rattle.std.specs.Prelude.{◌≡◌, map};
ghost use Rattle.sheet.specs.Limits.{most_rows};
ghost use Rattle.sheet.specs.Rates.{split_of, add_rates, Bounded};
ghost use Rattle.sheet.specs.Parts.{ReadsSums};
ghost use Rattle.sheet.specs.Holds.{row_of};

use crate::place::Place;
use crate::place_sums::PlaceSums;
use crate::rates::RateSums;
use crate::row::Row;
use crate::rows::Rows;

impl Row {
    // The row's rate split into four, unless a share is blank.
    fn split(&self) -> Option<RateSums>
        ensures { result ≡ split_of (row_of self.now) }
    {
        let safe = u64::from(self.safe?.thousandths);
        let coverage = u64::from(self.coverage?.thousandths);
        let rate = u64::from(self.rate);
        let dangerous = rate * (1000 - safe);
        Some(RateSums {
            safe: rate * (safe * 1000),
            dangerous_detected: dangerous * coverage,
            dangerous_undetected: dangerous * (1000 - coverage),
            safe_detected: rate * safe * coverage,
        })
    }
}

impl RateSums {
    const NONE: RateSums = RateSums {
        safe: 0,
        dangerous_detected: 0,
        dangerous_undetected: 0,
        safe_detected: 0,
    };

    // The sums of two, which are small enough to be added.
    fn plus(self, other: RateSums) -> RateSums
        requires { Bounded most_rows self × Bounded 1 other }
        ensures { result ≡ add_rates self other }
    {
        RateSums {
            safe: self.safe + other.safe,
            dangerous_detected: self.dangerous_detected + other.dangerous_detected,
            dangerous_undetected: self.dangerous_undetected + other.dangerous_undetected,
            safe_detected: self.safe_detected + other.safe_detected,
        }
    }
}

impl Rows {
    // The four sums of a place, or the number of its first row with a blank share.
    pub(crate) fn sums(&self, place: Place) -> Result<PlaceSums, u32>
        ensures { ReadsSums (map row_of self.now) place.number result }
    {
        let mut sums = RateSums::NONE;
        for (i, row) in self.as_slice().iter().enumerate() {
            if row.place == place {
                sums = sums.plus(row.split().ok_or(i as u32)?);
            }
        }
        Ok(PlaceSums { sums })
    }
}
