// Why the sheet refuses a call, and the numbered refusal that it is told by.
ghost use Rattle.std.specs.Prelude.{◌≡◌, Some};
ghost use Rattle.sheet.specs.Refusals.{layer_number, refusal_of};
ghost use Rattle.sheet.specs.Texts.{meaning_text};

use std::error::Error;
use std::fmt;

// Why a call is refused, with what the call named, even out of range.
#[derive(Clone, Copy, PartialEq, Eq, Debug)]
pub enum Fault {
    PlaceOver { place: u32, item: Option<u32> },
    RateOutside { place: u32 },
    ShareOver { place: u32 },
    SheetFull { place: u32 },
    RowBeyond { row: u32 },
    FieldOutside { place: u32, field: u32 },
    ValueOutside { place: u32, field: u32 },
    LetterUnknown,
    RowsMissing { place: u32 },
    ShareBlank { place: u32, row: u32 },
}

// The layer of the unit that refuses, with the number that it is told by.
#[derive(Clone, Copy, PartialEq, Eq, Debug)]
pub enum Layer {
    Sheet = 1,
    Card = 4,
}

// What a refused call tells: the refusal's number, the place and the item (a row or a field) that it names, and the layer that refused.
#[derive(Clone, Copy, PartialEq, Eq, Debug)]
pub struct Refusal {
    // the number is what the user is told and looks up; the kinds of refusals are the variants of the faults
    pub number: u8,
    pub place: Option<u32>,
    pub item: Option<u32>,
    pub layer: Layer,
}

impl From<Layer> for u8 {
    ghost from_gives = { λ l n. n ≡ layer_number l };

    fn from(layer: Layer) -> u8 {
        layer as u8
    }
}

impl From<Fault> for Refusal {
    ghost from_gives = { λ f r. r ≡ refusal_of f };

    fn from(fault: Fault) -> Refusal {
        let (number, place, item) = match fault {
            Fault::PlaceOver { place, item } => (1, Some(place), item),
            Fault::RateOutside { place } => (2, Some(place), None),
            Fault::ShareOver { place } => (3, Some(place), None),
            Fault::SheetFull { place } => (4, Some(place), None),
            Fault::RowBeyond { row } => (5, None, Some(row)),
            Fault::FieldOutside { place, field } => (6, Some(place), Some(field)),
            Fault::ValueOutside { place, field } => (7, Some(place), Some(field)),
            Fault::LetterUnknown => (8, None, None),
            Fault::RowsMissing { place } => (11, Some(place), None),
            Fault::ShareBlank { place, row } => (12, Some(place), Some(row)),
        };
        Refusal {
            number,
            place,
            item,
            layer: Layer::Sheet,
        }
    }
}

impl Fault {
    // What the fault means, in words.
    fn meaning(self) -> &'static str
        ensures { result.now ≡ meaning_text self }
    {
        match self {
            Fault::PlaceOver { .. } => "place over 7",
            Fault::RateOutside { .. } => "rate outside 1 to 100000000",
            Fault::ShareOver { .. } => "safe share or coverage over 1000",
            Fault::SheetFull { .. } => "64 rows stand already",
            Fault::RowBeyond { .. } => "no such row",
            Fault::FieldOutside { .. } => "field not 1 to 8",
            Fault::ValueOutside { .. } => "value outside the limits of its field",
            Fault::LetterUnknown => "mode letter not L or H",
            Fault::RowsMissing { .. } => "place without rows",
            Fault::ShareBlank { .. } => "safe share or coverage blank",
        }
    }
}

// The words of the fault. Written out, since a derived error promises nothing of its text.
impl fmt::Display for Fault {
    ghost output = { λ f. Some (meaning_text f) };

    fn fmt<W: fmt::Write>(&self, f: &mut fmt::Formatter<W>) -> fmt::Result {
        f.write_str(self.meaning())
    }
}

impl Error for Fault {}
