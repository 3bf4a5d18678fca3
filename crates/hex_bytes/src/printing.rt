// Bytes as a word.
ghost use Rattle.hex_bytes.specs.Digits.{hex_word};
ghost use Rattle.hex_bytes.specs.Kept.{held};
ghost use Rattle.std.specs.Prelude.{Some};

use crate::bytes::Bytes;
use crate::digits::lower_case;
use std::fmt;

impl fmt::Display for Bytes {
    ghost output = { λ b. Some (hex_word (held b)) };

    fn fmt<W: fmt::Write>(&self, f: &mut fmt::Formatter<W>) -> fmt::Result {
        let bytes = self.as_slice();
        if bytes.is_empty() {
            return f.write_str("-");
        }
        for b in bytes {
            let high = lower_case(*b / 16);
            let low = lower_case(*b % 16);
            write!(f, "{high}{low}")?;
        }
        Ok(())
    }
}
