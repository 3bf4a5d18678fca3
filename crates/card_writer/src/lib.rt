// Writes the card of a sheet into an area of bytes: at its start, and the rest of the area is kept.
#![tactic(auto)]

mod area;
mod buffer;
mod filling;
mod writer;

pub use area::AreaShort;
pub use buffer::LONGEST_CARD;
pub use writer::write;

#[cfg(test)]
mod tests {
    use super::*;
    use sheet::{Refusal, Sheet};
    use std::test::Fail;

    #[test]
    fn the_rest_of_the_area_is_kept(rt: HostRuntime) -> Result<(), Fail> {
        let mut sheet = Sheet::new(rt.alloc())?;
        assert!(rt; sheet.set_mode('L').is_ok());
        let mut area = [7; 6];
        assert_eq!(rt; write(&sheet, &mut area).ok(), Some(4));
        assert_eq!(rt; area, [1, 0, 1, 76, 7, 7]);
        Ok(())
    }

    #[test]
    fn a_short_area_is_refused(rt: HostRuntime) -> Result<(), Fail> {
        let mut sheet = Sheet::new(rt.alloc())?;
        assert!(rt; sheet.enter(7, 256, None, Some(1)).is_ok());
        let mut area = [7; 12];
        assert!(rt; write(&sheet, &mut area[..11]).is_err());
        assert_eq!(rt; area, [7; 12]);
        assert_eq!(rt; Refusal::from(AreaShort).number, 18);
        assert_eq!(rt; write(&sheet, &mut area).ok(), Some(12));
        assert_eq!(rt; area, [3, 0, 9, 7, 0, 0, 1, 0, 255, 255, 0, 1]);
        Ok(())
    }
}
