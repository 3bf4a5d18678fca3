// The card of a sheet: the bytes that carry it from unit to unit. A card is read field by field onto a draft, and the sheet changes
// only where the whole card is accepted.
#![tactic(auto)]

mod entry;
mod fault;
mod fields;
mod order;
mod reader;
mod steps;
mod tag;

pub use entry::{BLANK_SHARE, Entry};
pub use fault::{CardFault, CardRefusal, Cause};
pub use reader::CardReader;
pub use tag::Tag;

#[cfg(test)]
mod tests {
    use super::*;
    use sheet::{Place, Sheet};
    use std::test::Fail;

    // The proof test interval of a place.
    fn interval_at(sheet: &Sheet, place: u32) -> Option<u32> {
        let values = sheet.values(Place::new(place)?);
        *values.get(0)?
    }

    #[test]
    fn a_tag_has_a_byte_and_a_length(rt: HostRuntime) {
        assert_eq!(rt; Tag::try_from(2).ok(), Some(Tag::Setting));
        assert!(rt; Tag::try_from(4).is_err());
        assert_eq!(rt; u8::from(Tag::Row), 3);
        assert_eq!(rt; Tag::Row.length(), 9);
        assert_eq!(rt; Tag::Setting.header(), [2, 0, 6]);
        assert_eq!(rt; Entry::Mode { letter: 72 }.tag(), Tag::Mode);
    }

    #[test]
    fn a_card_replaces_the_sheet(rt: HostRuntime) -> Result<(), Fail> {
        let mut sheet = Sheet::new(rt.alloc())?;
        let mut reader = CardReader::new(rt.alloc())?;
        assert!(rt; sheet.enter(1, 5, None, None).is_ok());
        let card = [1, 0, 1, 72, 2, 0, 6, 0, 1, 0, 0, 34, 56];
        assert!(rt; reader.load(&mut sheet, &card).is_ok());
        assert!(rt; sheet.mode().is_some());
        assert_eq!(rt; interval_at(&sheet, 0), Some(8760));
        assert_eq!(rt; sheet.rows().len(), 0);
        Ok(())
    }

    #[test]
    fn a_refused_card_changes_nothing(rt: HostRuntime) -> Result<(), Fail> {
        let mut sheet = Sheet::new(rt.alloc())?;
        let mut reader = CardReader::new(rt.alloc())?;
        let card = [1, 0, 1, 72, 2, 0, 6, 0, 9, 0, 0, 34, 56];
        let fault = reader.load(&mut sheet, &card).err();
        let told = CardRefusal::from(fault.ok_or("field 9 was accepted")?);
        let refusal = told.refusal;
        assert_eq!(rt; refusal.number, 6);
        assert_eq!(rt; refusal.place, Some(0));
        assert_eq!(rt; refusal.item, Some(9));
        assert_eq!(rt; u8::from(refusal.layer), 1);
        assert_eq!(rt; told.byte, 4);
        assert!(rt; sheet.mode().is_none());
        Ok(())
    }
}
