// The sums of the rows of a place.
ghost use Rattle.sheet.specs.Limits.{most_rows};
ghost use Rattle.sheet.specs.Rates.{Bounded};

use crate::rates::RateSums;

// Four sums that are no more than those of 64 rows, each with the greatest rate.
#[derive(Clone, Copy)]
pub(crate) struct PlaceSums {
    pub(crate) sums: RateSums,
    ghost bounded: { Bounded most_rows sums },
}
