// The field at the start of some bytes: one byte of tag, two bytes of length, then the value; numbers have their high byte first.
ghost use Rattle.std.specs.Prelude.{◌≡◌, Ok};
ghost use Rattle.card.specs.Reading.{entry_at, value_by};
ghost use Rattle.card.specs.Helpers.{by_refusal};

use crate::entry::Entry;
use crate::fault::Cause;
use crate::tag::Tag;

impl Entry {
    // The field at the start of these bytes.
    #[tactic(auto, unfolding(crate::specs::Reading::entry_at))]
    pub(crate) fn read(bytes: &[u8]) -> Result<Entry, Cause>
        ensures { by_refusal result ≡ entry_at bytes.now }
    {
        let [tag, hi, lo, rest @ ..] = bytes else {
            return Err(Cause::CutShort);
        };
        let size = u16::from_be_bytes([*hi, *lo]);
        // each kind is read by itself, where its length is a constant
        match Tag::try_from(*tag)? {
            Tag::Mode => read_value(Tag::Mode, size, rest),
            Tag::Setting => read_value(Tag::Setting, size, rest),
            Tag::Row => read_value(Tag::Row, size, rest),
        }
    }
}

// What a field of this tag and length says, by the bytes after them.
fn read_value(tag: Tag, size: u16, rest: &[u8]) -> Result<Entry, Cause>
    ensures { by_refusal result ≡ value_by (Ok tag) size rest.now }
{
    if size != u16::from(tag.length()) {
        return Err(Cause::WrongLength);
    }
    match (tag, rest) {
        (Tag::Mode, [letter, ..]) => Ok(Entry::Mode { letter: *letter }),
        (Tag::Setting, [place, field, a, b, c, d, ..]) => Ok(Entry::Setting {
            place: *place,
            field: *field,
            value: u32::from_be_bytes([*a, *b, *c, *d]),
        }),
        (Tag::Row, [place, a, b, c, d, s, t, u, v, ..]) => Ok(Entry::Row {
            place: *place,
            rate: u32::from_be_bytes([*a, *b, *c, *d]),
            safe: u16::from_be_bytes([*s, *t]),
            coverage: u16::from_be_bytes([*u, *v]),
        }),
        _ => Err(Cause::CutShort),
    }
}
