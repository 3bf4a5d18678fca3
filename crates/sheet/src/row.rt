// A row of the failure mode and effects analysis, as it stands on the sheet.
ghost use Rattle.std.specs.Prelude.{◌≤◌};
ghost use Rattle.sheet.specs.Limits.{greatest_rate};

use crate::place::Place;
use crate::share::Share;

// A failure rate in thousandths of a FIT (1 FIT is 1e-9 per hour) at a place, with the share of it that is safe and the diagnostic
// coverage, either of which may be blank.
#[derive(Clone, Copy)]
pub struct Row {
    pub place: Place,
    pub rate: u32,
    pub safe: Option<Share>,
    pub coverage: Option<Share>,
    ghost least: { 1 ≤ rate },
    ghost most: { rate ≤ greatest_rate },
}
