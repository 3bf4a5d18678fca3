// How a card is written.
ghost use Rattle.std.specs.Prelude.{◌≡◌};
ghost use Rattle.sheet.specs.Sound.{Sound};
ghost use Rattle.card_writer.specs.Laws.{LongestReached, Writes};
ghost use Rattle.card_writer.specs.Writing.{area_answer, write_answer, written};

use crate::area::AreaShort;
use crate::buffer::CardBuffer;
use crate::filling::fill;
use sheet::Sheet;

// The card of the sheet at the start of the area, and its length; or nothing, where the area is shorter.
fn put_card(sheet: &Sheet, area: &mut [u8]) -> Result<usize, AreaShort>
    ensures answer { area_answer result ≡ write_answer sheet.now area.old }
    ensures after { area.new ≡ written sheet.now area.old }
    ensures sound { Sound sheet.now }
{
    let mut card = CardBuffer::new();
    fill(&mut card, sheet);
    // `get_mut` of a range says nothing of the area after the write, so the length is compared first.
    if area.len() < card.len() {
        return Err(AreaShort);
    }
    area[..card.len()].copy_from_slice(&card);
    Ok(card.len())
}

// Writes the card of the sheet at the start of the area, keeps the rest of the area, and answers the card's length; writes nothing where
// the area is shorter than the card.
pub fn write(sheet: &Sheet, area: &mut [u8]) -> Result<usize, AreaShort>
    ensures answer { area_answer result ≡ write_answer sheet.now area.old }
    ensures after { area.new ≡ written sheet.now area.old }
    ensures writes { Writes sheet.now area.old area.new (area_answer result) }
    ensures longest { LongestReached }
    ensures sound { Sound sheet.now }
{
    put_card(sheet, area)
}
