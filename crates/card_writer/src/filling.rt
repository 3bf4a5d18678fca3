// How a card is filled: the mode, the settings by place and field, then the rows.
ghost use Rattle.std.specs.Prelude.{◌≡◌, ◌*◌, ◌≤◌, [], ◌++◌, length};
ghost use Rattle.std.specs.Option.{option_map};
ghost use Rattle.card.specs.declared.entry.Entry.{Entry};
ghost use Rattle.card.specs.Entries.{bytes, card, field_bytes, longest_card, mode_entries, mode_letter, row_entry, setting_entries, share_number};
ghost use Rattle.sheet.specs.Holds.{row_of};
ghost use Rattle.sheet.specs.Sound.{Sound};

use crate::buffer::CardBuffer;
use card::{BLANK_SHARE, Entry, Tag};
use sheet::{Mode, Place, Row, Share, Sheet};

// One field more. Inlined, so that it is written straight from its numbers.
#[inline]
fn push(card: &mut CardBuffer, entry: Entry)
    requires { length (card.old.items ++ field_bytes entry) ≤ longest_card }
    ensures { card.new.items ≡ card.old.items ++ field_bytes entry }
{
    let added = match entry {
        Entry::Mode { letter } => card.try_extend_from_slice(&mode_bytes(letter)),
        Entry::Setting {
            place,
            field,
            value,
        } => card.try_extend_from_slice(&setting_bytes(place, field, value)),
        Entry::Row {
            place,
            rate,
            safe,
            coverage,
        } => card.try_extend_from_slice(&row_bytes(place, rate, safe, coverage)),
    };
    // there is room, so that this never fails
    added.unwrap()
}

// The eight fields of a place, those that are not blank.
fn push_place(card: &mut CardBuffer, place: u8, values: &[Option<u32>; 8])
    requires { length (card.old.items ++ bytes (setting_entries (8 * place) values.now)) ≤ longest_card }
    ensures { card.new.items ≡ card.old.items ++ bytes (setting_entries (8 * place) values.now) }
{
    for (field, value) in (1..).zip(values) {
        if let Some(value) = *value {
            push(
                card,
                Entry::Setting {
                    place,
                    field,
                    value,
                },
            );
        }
    }
}

// The mode, if there is one, as the first field.
fn push_mode(card: &mut CardBuffer, mode: Option<Mode>)
    requires { card.old.items ≡ [] }
    ensures { card.new.items ≡ bytes (mode_entries mode) }
{
    if let Some(mode) = mode {
        let letter = letter(mode);
        push(card, Entry::Mode { letter });
    }
}

// The mode and the settings of all places, as the first fields. A model forgets what always holds of a
// sheet, so that it is learnt from `rows`, and passed on in clauses.
fn push_settings(card: &mut CardBuffer, sheet: &Sheet)
    requires sound { Sound sheet.now }
    requires empty { card.old.items ≡ [] }
    ensures { card.new.items ≡ bytes (mode_entries sheet.now.mode) ++ bytes (setting_entries 0 sheet.now.fields) }
{
    push_mode(card, sheet.mode());
    for place in (0..8).filter_map(Place::new) {
        push_place(card, place.number, &sheet.values(place));
    }
}

// Fills an empty buffer with the card of a sheet. It is lent and not answered, so that it is not copied.
pub(crate) fn fill(buffer: &mut CardBuffer, sheet: &Sheet)
    requires { buffer.old.items ≡ [] }
    ensures value { buffer.new.items ≡ card sheet.now }
    ensures sound { Sound sheet.now }
{
    let rows = sheet.rows();
    push_settings(buffer, sheet);
    for row in rows {
        push(buffer, entry_of(row));
    }
}

// The letter of a mode. This and `entry_of` are no `From`: it would stand in the crate of one of their types, public
// and away from the one place that wants it. `share_number` has no type of any of these crates, so it could stand nowhere.
fn letter(mode: Mode) -> u8
    ensures { result ≡ mode_letter mode }
{
    match mode {
        Mode::Low => b'L',
        Mode::High => b'H',
    }
}

// The field of a row.
fn entry_of(row: &Row) -> Entry
    ensures { result ≡ row_entry (row_of row.now) }
{
    Entry::Row {
        place: row.place.number,
        rate: row.rate,
        safe: share_number(row.safe),
        coverage: share_number(row.coverage),
    }
}

// The bytes of a mode's field.
fn mode_bytes(letter: u8) -> [u8; 4]
    ensures { result ≡ field_bytes (Entry.Mode letter) }
{
    let [tag, hi, lo] = Tag::Mode.header();
    [tag, hi, lo, letter]
}

// The bytes of a setting's field.
fn setting_bytes(place: u8, field: u8, value: u32) -> [u8; 9]
    ensures { result ≡ field_bytes (Entry.Setting place field value) }
{
    let [tag, hi, lo] = Tag::Setting.header();
    let [a, b, c, d] = value.to_be_bytes();
    [tag, hi, lo, place, field, a, b, c, d]
}

// The bytes of a row's field.
fn row_bytes(place: u8, rate: u32, safe: u16, coverage: u16) -> [u8; 12]
    ensures { result ≡ field_bytes (Entry.Row place rate safe coverage) }
{
    let [tag, hi, lo] = Tag::Row.header();
    let [a, b, c, d] = rate.to_be_bytes();
    let [s, t] = safe.to_be_bytes();
    let [u, v] = coverage.to_be_bytes();
    [tag, hi, lo, place, a, b, c, d, s, t, u, v]
}

// A share by its number on the card.
fn share_number(share: Option<Share>) -> u16
    ensures { result ≡ share_number (option_map (λ s. s.thousandths) share) }
{
    share.map_or(BLANK_SHARE, |share| share.thousandths)
}
