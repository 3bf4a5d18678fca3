// Holds reading and writing to every cut and every change of one byte of a short card: each is refused, or written back byte for byte.
#![tactic(auto)]

use card::{CardReader, CardRefusal};
use card_writer::write;
use sheet::Sheet;
use std::fmt;

const LENGTH: usize = 46;

// Mode H; interval 8,760 h at place 0 and type B at place 1; a row at place 0, and one at place 3 with a blank safe share.
const CARD: [u8; LENGTH] = [
    1, 0, 1, 72, 2, 0, 6, 0, 1, 0, 0, 34, 56, 2, 0, 6, 1, 7, 0, 0, 0, 66, 3, 0, 9, 0, 0, 1, 134,
    160, 1, 244, 2, 88, 3, 0, 9, 3, 0, 0, 0, 7, 255, 255, 3, 232,
];

// What became of some bytes that were loaded onto the sheet of the card.
#[derive(Clone, Copy)]
enum Verdict {
    // accepted, and written back byte for byte
    WrittenBack,
    // accepted, and written back otherwise
    WrittenOtherwise,
    // refused, and the sheet is still that of the card: by the number that is told
    Refused { number: u8, byte: usize },
    // refused, and the sheet is another
    RefusedAndChanged,
}

// How often a refusal was given, and the sum of the bytes that were told.
#[derive(Clone, Copy)]
struct Refusals {
    count: u32,
    bytes: usize,
}

// How often each verdict was given; the refusals by their numbers.
#[derive(Clone, Copy)]
struct Tally {
    written_back: u32,
    wrong: u32,
    refused: [Refusals; 20],
}

impl Tally {
    const NONE: Tally = Tally {
        written_back: 0,
        wrong: 0,
        refused: [Refusals { count: 0, bytes: 0 }; 20],
    };

    fn count(&mut self, verdict: Verdict) {
        match verdict {
            Verdict::WrittenBack => self.written_back = self.written_back.saturating_add(1),
            Verdict::WrittenOtherwise | Verdict::RefusedAndChanged => {
                self.wrong = self.wrong.saturating_add(1);
            }
            Verdict::Refused { number, byte } => {
                if let Some(refusals) = self.refused.get_mut(usize::from(number)) {
                    refusals.count = refusals.count.saturating_add(1);
                    refusals.bytes = refusals.bytes.saturating_add(byte);
                }
            }
        }
    }
}

impl fmt::Display for Tally {
    fn fmt<W: fmt::Write>(&self, f: &mut fmt::Formatter<W>) -> fmt::Result {
        let back = self.written_back;
        let wrong = self.wrong;
        write!(f, "{back} written back, {wrong} wrong")?;
        for (number, refusals) in self.refused.iter().enumerate() {
            let count = refusals.count;
            let bytes = refusals.bytes;
            if count > 0 {
                write!(f, ", {count} refused {number} at bytes of sum {bytes}")?;
            }
        }
        Ok(())
    }
}

// Whether the sheet is written as these bytes.
fn written_as(sheet: &Sheet, card: &[u8]) -> bool {
    let mut area = [0; LENGTH];
    let written = write(sheet, &mut area);
    written.is_ok_and(|length| area.get(0..length) == Some(card))
}

// Loads the card, and then these bytes.
fn judged(reader: &mut CardReader, sheet: &mut Sheet, bytes: &[u8]) -> Verdict {
    if reader.load(sheet, &CARD).is_err() {
        return Verdict::RefusedAndChanged;
    }
    match reader.load(sheet, bytes) {
        Ok(()) if written_as(sheet, bytes) => Verdict::WrittenBack,
        Ok(()) => Verdict::WrittenOtherwise,
        Err(fault) if written_as(sheet, &CARD) => Verdict::Refused {
            number: CardRefusal::from(fault).refusal.number,
            byte: fault.byte,
        },
        Err(_) => Verdict::RefusedAndChanged,
    }
}

fn main(rt: HostRuntime) -> anyhow::Result<()> {
    let mut sheet = Sheet::new(rt.alloc())?;
    let mut reader = CardReader::new(rt.alloc())?;
    let mut cuts = Tally::NONE;
    for cut in (0..=LENGTH).filter_map(|end| CARD.get(..end)) {
        cuts.count(judged(&mut reader, &mut sheet, cut));
    }
    println!(rt; "cuts: {cuts}")?;
    let mut changes = Tally::NONE;
    for (at, kept) in CARD.iter().enumerate() {
        for byte in (0..=255).filter(|byte| byte != kept) {
            let mut card = CARD;
            card[at] = byte;
            changes.count(judged(&mut reader, &mut sheet, &card));
        }
    }
    println!(rt; "changes: {changes}")?;
    Ok(())
}
