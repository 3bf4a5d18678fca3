// The sheet of a safety function: its mode of operation, the settings of eight places, and the rows of its failure mode and effects
// analysis. Every call either does what it says or is refused with a numbered refusal and changes nothing.
#![tactic(auto)]

mod bounds;
mod calls;
mod choice;
mod fault;
mod field;
mod limits;
mod mode;
mod place;
mod place_sums;
mod rates;
mod readers;
mod record;
mod row;
mod rows;
mod setting;
mod share;
mod sheets;
mod show;
mod split;

pub use fault::{Fault, Layer, Refusal};
pub use mode::Mode;
pub use place::Place;
pub use rates::RateSums;
pub use row::Row;
pub use share::Share;
pub use sheets::Sheet;
pub use show::Percentages;

#[cfg(test)]
mod tests {
    use super::*;
    use std::test::Fail;

    // The sums of a place, if it has some.
    fn sums_at(sheet: &Sheet, place: u32) -> Option<RateSums> {
        sheet.rate_sums(Place::new(place)?)
    }

    #[test]
    fn a_row_splits_and_shows(rt: HostRuntime) -> Result<(), Fail> {
        let mut sheet = Sheet::new(rt.alloc())?;
        assert!(rt; sheet.enter(0, 100_000, Some(500), Some(600)).is_ok());
        let sums = sums_at(&sheet, 0).ok_or("no sums")?;
        assert_eq!(rt; sums.safe, 50_000_000_000);
        assert_eq!(rt; sums.dangerous_detected, 30_000_000_000);
        assert_eq!(rt; sums.dangerous_undetected, 20_000_000_000);
        assert_eq!(rt; sums.safe_detected, 30_000_000_000);
        let shown = sheet.show(0).ok().ok_or("refused")?;
        assert_eq!(rt; shown.sff, 800);
        assert_eq!(rt; shown.diagnostic_coverage, Some(600));
        Ok(())
    }

    #[test]
    fn a_blank_share_has_no_sums(rt: HostRuntime) -> Result<(), Fail> {
        let mut sheet = Sheet::new(rt.alloc())?;
        assert!(rt; sheet.enter(2, 1, Some(0), Some(0)).is_ok());
        assert!(rt; sheet.enter(3, 1, Some(0), None).is_ok());
        assert!(rt; sums_at(&sheet, 2).is_some());
        assert!(rt; sums_at(&sheet, 3).is_none());
        let fault = sheet.show(3).err().ok_or("a blank share was shown")?;
        let refusal = Refusal::from(fault);
        assert_eq!(rt; refusal.number, 12);
        assert_eq!(rt; refusal.place, Some(3));
        assert_eq!(rt; refusal.item, Some(1));
        assert_eq!(rt; u8::from(refusal.layer), 1);
        assert_eq!(rt;
            format!(in rt.alloc(); "{fault}")?.as_str(),
            "safe share or coverage blank"
        );
        Ok(())
    }

    // The value at an index of the eight fields of a place.
    fn value_at(sheet: &Sheet, place: u32, index: usize) -> Option<u32> {
        let values = sheet.values(Place::new(place)?);
        *values.get(index)?
    }

    #[test]
    fn what_is_set_is_read(rt: HostRuntime) -> Result<(), Fail> {
        let mut sheet = Sheet::new(rt.alloc())?;
        assert!(rt; sheet.set(7, 1, 8760).is_ok());
        assert!(rt; sheet.set(7, 7, 66).is_ok());
        assert!(rt; sheet.set(7, 2, 8).is_ok());
        assert!(rt; sheet.blank(7, 2).is_ok());
        assert_eq!(rt; value_at(&sheet, 7, 0), Some(8760));
        assert_eq!(rt; value_at(&sheet, 7, 1), None);
        assert_eq!(rt; value_at(&sheet, 7, 6), Some(66));
        assert_eq!(rt; value_at(&sheet, 6, 0), None);
        Ok(())
    }

    #[test]
    fn letters_and_layers_have_meanings(rt: HostRuntime) {
        assert_eq!(rt; Mode::try_from('L'), Ok(Mode::Low));
        assert_eq!(rt; Mode::try_from('H'), Ok(Mode::High));
        assert_eq!(rt; Mode::try_from('h'), Err(Fault::LetterUnknown));
        assert_eq!(rt; u8::from(Layer::Sheet), 1);
        assert_eq!(rt; u8::from(Layer::Card), 4);
    }

    #[test]
    fn a_struck_row_is_gone(rt: HostRuntime) -> Result<(), Fail> {
        let mut sheet = Sheet::new(rt.alloc())?;
        assert!(rt; sheet.enter(0, 1, Some(0), None).is_ok());
        assert!(rt; sheet.enter(1, 2, None, Some(1000)).is_ok());
        assert!(rt; sheet.strike(0).is_ok());
        let rows = sheet.rows();
        assert_eq!(rt; rows.len(), 1);
        assert_eq!(rt; rows[0].rate, 2);
        Ok(())
    }
}
