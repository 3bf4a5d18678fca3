// What stands on a sheet, for others to read.
ghost use Rattle.std.specs.Prelude.{◌≡◌, map};
ghost use Rattle.sheet.specs.Holds.{row_of};
ghost use Rattle.sheet.specs.Model.{place_fields};
ghost use Rattle.sheet.specs.Sound.{Sound};

use crate::mode::Mode;
use crate::place::Place;
use crate::row::Row;
use crate::sheets::Sheet;

impl Sheet {
    // The mode, if one was put in.
    pub fn mode(&self) -> Option<Mode>
        ensures value { result ≡ self.now.mode }
        ensures sound { Sound self.now }
    {
        self.mode
    }

    // The values of the eight fields of a place in order, by their numbers; none where a field is blank.
    pub fn values(&self, place: Place) -> [Option<u32>; 8]
        ensures value { result ≡ place_fields self.now place.number }
        ensures sound { Sound self.now }
    {
        self.places[usize::from(place.number)].values()
    }

    // The rows in order of entry. Of every sheet: each value on it is within its limits.
    pub fn rows(&self) -> &[Row]
        ensures rows { map row_of result.now ≡ self.now.rows }
        ensures sound { Sound self.now }
    {
        self.rows.as_slice()
    }
}
