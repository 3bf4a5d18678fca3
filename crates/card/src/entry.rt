// What one field of a card says.
ghost use Rattle.std.specs.Prelude.{◌≡◌};
ghost use Rattle.card.specs.Entries.{tag_of, width};

use crate::tag::Tag;

// How a share that is blank stands on a card.
pub const BLANK_SHARE: u16 = 65535;

// The mode by its letter; a setting, which is the value of one field of a place; or a row, whose shares are 65,535 where they are blank.
// The numbers are as they stand on the card, within limits or not.
#[derive(Clone, Copy, Debug, PartialEq, Eq)]
pub enum Entry {
    Mode {
        letter: u8,
    },
    Setting {
        place: u8,
        field: u8,
        value: u32,
    },
    Row {
        place: u8,
        rate: u32,
        safe: u16,
        coverage: u16,
    },
}

impl Entry {
    // The kind of the field.
    pub fn tag(self) -> Tag
        ensures { result ≡ tag_of self }
    {
        match self {
            Entry::Mode { .. } => Tag::Mode,
            Entry::Setting { .. } => Tag::Setting,
            Entry::Row { .. } => Tag::Row,
        }
    }

    // How many bytes the field takes.
    pub(crate) fn width(self) -> usize
        ensures { result ≡ width self }
    {
        let tag = self.tag();
        tag.header().len() + usize::from(tag.length())
    }
}
