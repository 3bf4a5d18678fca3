// How bytes come in and go out.
ghost use Rattle.std.specs.Prelude.{◌≡◌, ◌<◌, ◌≤◌, [], ◌∷◌, ◌++◌, length};
ghost use Rattle.std.specs.Option.{option_map};
ghost use Rattle.hex_bytes.specs.Capacity.{capacity, slice_kept};
ghost use Rattle.hex_bytes.specs.Kept.{held};
ghost use Rattle.hex_bytes.specs.declared.bytes.Bytes.{Bytes};

use super::{Bytes, CAPACITY};

impl Bytes {
    // No bytes.
    pub(crate) fn none() -> Bytes
        ensures { held result ≡ [] }
    {
        Bytes {
            array: [0; CAPACITY],
            length: 0,
        }
    }

    // Adds a byte after the others.
    pub(crate) fn push(&mut self, byte: u8)
        requires { length (held self.old) < capacity }
        ensures { held self.new ≡ held self.old ++ byte ∷ [] }
    {
        self.array[self.length] = byte;
        self.length += 1;
    }

    // These bytes, or none where they are more than 2,048.
    // A word is a `&[u8]` too, so that this and `from_hex` have names: `TryFrom` could be only one of them.
    pub fn from_slice(bytes: &[u8]) -> Option<Bytes>
        ensures { option_map held result ≡ slice_kept bytes.now }
    {
        if bytes.len() > CAPACITY {
            return None;
        }
        let mut array = [0; CAPACITY];
        array[..bytes.len()].copy_from_slice(bytes);
        Some(Bytes {
            array,
            length: bytes.len(),
        })
    }

    // The bytes, without the zeros after them. No other value holds the same.
    pub fn as_slice(&self) -> &[u8]
        ensures bytes { result.now ≡ held self.now }
        ensures few { length (held self.now) ≤ capacity }
        ensures alone { (b : Bytes) → held b ≡ held self.now → b ≡ self.now }
    {
        &self.array[..self.length]
    }
}
