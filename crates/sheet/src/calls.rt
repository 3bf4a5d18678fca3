// The calls that change a sheet. Their numbers are as they were keyed in, within limits or not, since a wrong one has its own refusal.
ghost use Rattle.std.specs.Prelude.{◌≡◌, true, IfOk, Ok, Some, None};
ghost use Rattle.sheet.specs.Limits.{allowed_or_blank};
ghost use Rattle.sheet.specs.Model.{new_model, with_field};
ghost use Rattle.sheet.specs.Settings.{setting_number, setting_value};
ghost use Rattle.sheet.specs.Refusals.{answer_of};
ghost use Rattle.sheet.specs.Calls.{enter_answer, entered, strike_answer, struck, set_answer, was_set, blank_answer, blanked, mode_answer, mode_put};
ghost use Rattle.sheet.specs.Laws.{RefusedUnchanged, OneField, OneRowOut};
ghost use Rattle.sheet.specs.Parts.{put_answer, was_put};
ghost use Rattle.sheet.specs.Sound.{Sound};

use crate::fault::Fault;
use crate::field::Field;
use crate::mode::Mode;
use crate::place::Place;
use crate::record::PlaceRecord;
use crate::row::Row;
use crate::rows::Rows;
use crate::setting::Setting;
use crate::sheets::Sheet;
use std::alloc::{AllocError, Global};

impl Sheet {
    // A new sheet, with the memory that it will ever want; the error is want of memory.
    pub fn new(heap: Global) -> Result<Sheet, AllocError>
        ensures after { IfOk result (λ s. s ≡ new_model) }
        ensures sound { IfOk result Sound }
    {
        Ok(Sheet {
            mode: None,
            places: [PlaceRecord::BLANK; 8],
            rows: Rows::new(heap)?,
        })
    }

    // Adds a row, and answers its number.
    pub fn enter(
        &mut self,
        place: u32,
        rate: u32,
        safe: Option<u32>,
        coverage: Option<u32>,
    ) -> Result<u32, Fault>
        ensures answer { answer_of result ≡ enter_answer self.old place rate safe coverage }
        ensures after { self.new ≡ entered self.old place rate safe coverage }
        ensures unchanged { RefusedUnchanged result self.old self.new }
        ensures sound { Sound self.new }
    {
        // from here on it is known what always holds of a sheet, also where the call is refused
        let _ = &self.mode;
        let row = Row::new(place, rate, safe, coverage)?;
        self.rows.add(row).ok_or(Fault::SheetFull { place })
    }

    // Removes a row; later rows move up by one.
    pub fn strike(&mut self, row: u32) -> Result<(), Fault>
        ensures answer { answer_of result ≡ strike_answer self.old row }
        ensures after { self.new ≡ struck self.old row }
        ensures one_row_out { OneRowOut row self.old self.new result }
        ensures unchanged { RefusedUnchanged result self.old self.new }
        ensures sound { Sound self.new }
    {
        self.rows.remove(row).ok_or(Fault::RowBeyond { row })?;
        Ok(())
    }

    // Writes one field of one place: a value that it may hold, or blank. `set` and `blank` each take it in, and tell its two ends apart
    // at once, so that sharing it costs little.
    #[inline(always)]
    fn put(&mut self, place: u32, field: u32, value: Option<u32>) -> Result<(), Fault>
        ensures answer { answer_of result ≡ put_answer place field value }
        ensures after { self.new ≡ was_put self.old place field value }
        ensures one_field { OneField place field value self.old self.new result }
        ensures unchanged { RefusedUnchanged result self.old self.new }
        ensures sound { Sound self.new }
    {
        // for what always holds of a sheet, as in `enter`
        let _ = &self.mode;
        let at = Place::new(place).ok_or(Fault::PlaceOver {
            place,
            item: Some(field),
        })?;
        let named = Field::try_from(field).map_err(|_| Fault::FieldOutside { place, field })?;
        let setting = Setting::new(named, value).map_err(|_| Fault::ValueOutside { place, field })?;
        self.write(at, setting);
        Ok(())
    }

    // Writes one field of one place.
    fn write(&mut self, place: Place, setting: Setting)
        requires { allowed_or_blank (setting_number setting) (setting_value setting) ≡ true }
        ensures after { self.new ≡ with_field self.old place.number (setting_number setting) (setting_value setting) }
        ensures one_field { OneField place.number (setting_number setting) (setting_value setting) self.old self.new (Ok tt) }
        ensures sound { Sound self.new }
    {
        let record = &mut self.places[usize::from(place.number)];
        record.put(setting);
    }

    // Fills one field of one place.
    pub fn set(&mut self, place: u32, field: u32, value: u32) -> Result<(), Fault>
        ensures answer { answer_of result ≡ set_answer place field value }
        ensures after { self.new ≡ was_set self.old place field value }
        ensures one_field { OneField place field (Some value) self.old self.new result }
        ensures unchanged { RefusedUnchanged result self.old self.new }
        ensures sound { Sound self.new }
    {
        self.put(place, field, Some(value))?;
        Ok(())
    }

    // Empties one field of one place.
    pub fn blank(&mut self, place: u32, field: u32) -> Result<(), Fault>
        ensures answer { answer_of result ≡ blank_answer place field }
        ensures after { self.new ≡ blanked self.old place field }
        ensures one_field { OneField place field None self.old self.new result }
        ensures unchanged { RefusedUnchanged result self.old self.new }
        ensures sound { Sound self.new }
    {
        self.put(place, field, None)?;
        Ok(())
    }

    // Puts in the mode of a letter.
    pub fn set_mode(&mut self, letter: char) -> Result<(), Fault>
        ensures answer { answer_of result ≡ mode_answer letter }
        ensures after { self.new ≡ mode_put self.old letter }
        ensures unchanged { RefusedUnchanged result self.old self.new }
        ensures sound { Sound self.new }
    {
        // for what always holds of a sheet, as in `enter`
        let _ = &self.mode;
        self.mode = Some(Mode::try_from(letter)?);
        Ok(())
    }

    // Makes the sheet new.
    pub fn clear(&mut self)
        ensures after { self.new ≡ new_model }
        ensures sound { Sound self.new }
    {
        self.mode = None;
        self.places = [PlaceRecord::BLANK; 8];
        self.rows.clear();
    }
}
