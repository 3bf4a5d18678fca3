// The bytes that a word writes.
ghost use Rattle.std.specs.Prelude.{◌≡◌, ℕ, ◌<◌, ◌≤◌, List, length, Some, Ok};
ghost use Rattle.hex_bytes.specs.Capacity.{capacity};
ghost use Rattle.hex_bytes.specs.Kept.{held, held_or};
ghost use Rattle.std.specs.Option.{option_map};
ghost use Rattle.hex_bytes.specs.declared.bytes.Bytes.{Bytes};
ghost use Rattle.hex_bytes.specs.Digits.{hex_of, hex_word};
ghost use Rattle.hex_bytes.specs.Reading.{from_hex_of, longest, reason};
ghost use Rattle.hex_bytes.specs.Writing.{Writes};
ghost use Rattle.std.specs.List.{AllByRecursion};

use crate::bytes::{Bytes, CAPACITY};
use crate::digits::byte;
use std::error::Error;
use std::fmt;

// The most characters of a word: two for each byte that can be kept.
const LONGEST: usize = 2 * CAPACITY;

// Why a word writes no bytes that can be kept.
#[derive(Clone, Copy, PartialEq, Eq, Debug)]
pub enum NotHex {
    // it is neither `-` nor one pair or more of hexadecimal digits
    NotPairs,
    // it has more characters than two for each of 2,048 bytes
    TooLong,
}

// Written out, since a derived error promises nothing of its text.
impl fmt::Display for NotHex {
    ghost output = { λ e. Some (reason e) };

    fn fmt<W: fmt::Write>(&self, f: &mut fmt::Formatter<W>) -> fmt::Result {
        f.write_str(match self {
            NotHex::NotPairs => "neither `-` nor pairs of hexadecimal digits",
            NotHex::TooLong => "more than two digits for each of 2,048 bytes",
        })
    }
}

impl Error for NotHex {}

// The bytes that pairs of digits write.
fn pairs(word: &[u8]) -> Option<Bytes>
    requires { length word.now ≤ longest }
    ensures { option_map held result ≡ hex_of word.now }
{
    let mut bytes = Bytes::none();
    for pair in word.chunks(2) {
        bytes.push(byte(pair)?);
    }
    Some(bytes)
}

// What a word is read as.
fn read(word: &[u8]) -> Result<Bytes, NotHex>
    ensures { held_or result ≡ from_hex_of word.now }
{
    if word.len() > LONGEST {
        return Err(NotHex::TooLong);
    }
    match word {
        b"" => Err(NotHex::NotPairs),
        b"-" => Ok(Bytes::none()),
        _ => pairs(word).ok_or(NotHex::NotPairs),
    }
}

impl Bytes {
    // The bytes that a word writes in hexadecimal, two digits to a byte, or `-` for no bytes.
    // A word is read just where it writes bytes that can be kept: `accepted` and `spelled`.
    // `value` says which reason is told of any other word. The word of bytes that are printed is read as these bytes: `back`.
    pub fn from_hex(word: &[u8]) -> Result<Bytes, NotHex>
        ensures value { held_or result ≡ from_hex_of word.now }
        ensures accepted { (b : Bytes) → result ≡ Ok b → Writes word.now (held b) × (length (held b) ≤ capacity) × AllByRecursion (λ b. b < 256) (held b) }
        ensures spelled { (bs : List ℕ) → Writes word.now bs → length bs ≤ capacity → held_or result ≡ Ok bs }
        ensures back { (bs : List ℕ) → AllByRecursion (λ b. b < 256) bs → length bs ≤ capacity → word.now ≡ hex_word bs → held_or result ≡ Ok bs }
    {
        read(word)
    }
}
