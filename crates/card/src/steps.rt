// One field of a card, put on a sheet.
ghost use Rattle.std.specs.Prelude.{◌≡◌, IfOk};
ghost use Rattle.sheet.specs.Refusals.{answer_of};
ghost use Rattle.card.specs.Entries.{share};
ghost use Rattle.card.specs.Helpers.{by_refusal, Last, Stepped};
ghost use Rattle.card.specs.Reading.{entry_answer, entry_made, step};

use crate::entry::{BLANK_SHARE, Entry};
use crate::fault::Cause;
use sheet::{Fault, Sheet};

// A share by its number on the card.
fn share(number: u16) -> Option<u32>
    ensures { result ≡ share number }
{
    (number != BLANK_SHARE).then_some(u32::from(number))
}

impl Entry {
    // Puts on the sheet what the field says.
    fn apply(self, sheet: &mut Sheet) -> Result<(), Fault>
        ensures answer { answer_of result ≡ entry_answer sheet.old self }
        ensures after { sheet.new ≡ entry_made sheet.old self }
    {
        match self {
            Entry::Mode { letter } => sheet.set_mode(char::from(letter)),
            Entry::Setting {
                place,
                field,
                value,
            } => sheet.set(u32::from(place), u32::from(field), value),
            Entry::Row {
                place,
                rate,
                safe,
                coverage,
            } => sheet
                .enter(u32::from(place), rate, share(safe), share(coverage))
                .map(|_| ()),
        }
    }
}

// Reads the field at the start of these bytes onto the sheet, after the last field.
#[tactic(auto, unfolding(crate::specs::Reading::step))]
pub(crate) fn step(sheet: &mut Sheet, last: Option<Entry>, bytes: &[u8]) -> Result<Entry, Cause>
    requires { Last last sheet.old }
    ensures value { by_refusal result ≡ step sheet.old bytes.now }
    ensures stepped { IfOk result (Stepped sheet.old sheet.new bytes.now) }
{
    let entry = Entry::read(bytes)?;
    if !entry.may_follow(last) {
        return Err(Cause::OutOfOrder);
    }
    entry.apply(sheet)?;
    Ok(entry)
}
