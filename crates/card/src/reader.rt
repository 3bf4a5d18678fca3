// How a card is read.
ghost use Rattle.std.specs.Prelude.{◌≡◌, IfOk, IfErr, OnOk};
ghost use Rattle.sheet.specs.Model.{new_model};
ghost use Rattle.sheet.specs.Sound.{Sound};
ghost use Rattle.card.specs.Entries.{card};
ghost use Rattle.card.specs.Laws.{Loads, OneSheet, RefusedAt, TakesFields};
ghost use Rattle.card.specs.Loading.{load_answer, loaded, card_answer};
ghost use Rattle.card.specs.Refusals.{fault_refusal};

use crate::fault::CardFault;
use crate::steps::step;
use sheet::Sheet;
use std::alloc::{AllocError, Global};

// Reads a whole card onto a new sheet.
fn read_onto(sheet: &mut Sheet, bytes: &[u8]) -> Result<(), CardFault>
    requires { sheet.old ≡ new_model }
    ensures accepted { OnOk result (card sheet.new ≡ bytes.now) }
    ensures sound { OnOk result (Sound sheet.new) }
    ensures refused { IfErr result (λ f. RefusedAt bytes.now (fault_refusal f)) }
{
    let mut rest = bytes;
    let mut last = None;
    // a field's width is known only once it is read, so no iterator of the library over pieces of the bytes has the
    // fields; one of our own would leave the sheet, the last field and the byte to the loop all the same
    while !rest.is_empty() {
        let byte = bytes.len() - rest.len();
        let entry = step(sheet, last, rest).map_err(|cause| CardFault { byte, cause })?;
        rest = &rest[entry.width()..];
        last = Some(entry);
    }
    Ok(())
}

// Reads cards. The draft is the sheet that a card is read onto; it changes places with the user's sheet when the whole card is accepted.
#[derive(Drop)]
pub struct CardReader {
    draft: Sheet,
}

impl CardReader {
    // A reader with the memory that it will ever want; the error is want of memory.
    pub fn new(heap: Global) -> Result<CardReader, AllocError>
        ensures { IfOk result (λ k. k.draft ≡ new_model) }
    {
        let draft = Sheet::new(heap)?;
        Ok(CardReader { draft })
    }

    // Reads a card onto the sheet, which changes only where the whole card is accepted.
    pub fn load(&mut self, sheet: &mut Sheet, bytes: &[u8]) -> Result<(), CardFault>
        ensures answer { card_answer result ≡ load_answer bytes.now }
        ensures after { sheet.new ≡ loaded sheet.old bytes.now }
        ensures loads { Loads bytes.now sheet.old sheet.new (card_answer result) }
        ensures sound { Sound sheet.new }
        ensures fields { TakesFields }
        ensures one_sheet { OneSheet }
    {
        // for what always holds of a sheet, which `rows` tells
        let _ = sheet.rows();
        self.draft.clear();
        read_onto(&mut self.draft, bytes)?;
        std::mem::swap(sheet, &mut self.draft);
        Ok(())
    }
}
