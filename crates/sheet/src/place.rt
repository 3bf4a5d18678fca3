// A place of the sheet, by a number that has been checked.
ghost use Rattle.std.specs.Prelude.{◌≡◌, ◌<◌, ◌≤◌, MatchOption};
ghost use Rattle.sheet.specs.Limits.{last_place};

use crate::bounds::within;

// One of the eight places, 0 to 7. All rows of a place describe one of its like channels.
#[derive(Clone, Copy, PartialEq, Eq, Debug)]
pub struct Place {
    pub number: u8,
    ghost within: { number ≤ last_place },
}

impl Place {
    // The place of that number, if there is one. `new`, since of a number that is no place there is nothing else to tell.
    pub fn new(number: u32) -> Option<Place>
        ensures { MatchOption result (last_place < number) (λ p. p.number ≡ number) }
    {
        let number = within::<0, 7>(number).ok()? as u8;
        Some(Place { number })
    }
}
