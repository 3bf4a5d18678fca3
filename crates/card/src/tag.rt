// The kinds of fields of a card: the byte that begins each, and how many bytes its value has.
ghost use Rattle.std.specs.Prelude.{◌≡◌, ◌∷◌};
ghost use Rattle.card.specs.Entries.{two_bytes};
ghost use Rattle.card.specs.Tags.{byte_of, tag_at, value_length};

use crate::fault::Cause;

// The kind of a field. Its number is the byte that begins the field.
#[derive(Clone, Copy, Debug, PartialEq, Eq)]
pub enum Tag {
    Mode = 1,
    Setting = 2,
    Row = 3,
}

impl Tag {
    // How many bytes the value of such a field has.
    pub fn length(self) -> u8
        ensures { result ≡ value_length self }
    {
        match self {
            Tag::Mode => 1,
            Tag::Setting => 6,
            Tag::Row => 9,
        }
    }

    // The bytes before the value of such a field: its tag, and how many bytes its value has.
    pub fn header(self) -> [u8; 3]
        ensures { result ≡ byte_of self ∷ two_bytes (value_length self) }
    {
        let [hi, lo] = u16::from(self.length()).to_be_bytes();
        [u8::from(self), hi, lo]
    }
}

impl From<Tag> for u8 {
    ghost from_gives = { λ t b. b ≡ byte_of t };

    fn from(tag: Tag) -> u8 {
        tag as u8
    }
}

// The tag of a byte, or the cause that there is none.
impl TryFrom<u8> for Tag {
    type Error = Cause;

    ghost try_from_gives = { λ b r. r ≡ tag_at b };

    fn try_from(byte: u8) -> Result<Tag, Cause> {
        match byte {
            1 => Ok(Tag::Mode),
            2 => Ok(Tag::Setting),
            3 => Ok(Tag::Row),
            _ => Err(Cause::UnknownTag),
        }
    }
}
