// Bytes in hexadecimal: up to 2,048 bytes that are kept in place, read from a word and printed as one.
// A word has two digits for each byte, in either case, and `-` is the word for no bytes.
#![tactic(auto)]

mod bytes;
mod digits;
mod printing;
mod reading;

pub use bytes::{Bytes, CAPACITY};
pub use reading::NotHex;

// Some words, with the bytes that each writes.
#[cfg(test)]
mod tests {
    use super::*;
    use std::fmt;
    use std::fmt::Write;
    use std::test::Fail;

    #[test]
    fn words_are_read(rt: HostRuntime) -> Result<(), Fail> {
        assert_eq!(rt; Bytes::from_hex(b"0aFf")?.as_slice(), [10, 255].as_slice());
        assert_eq!(rt; Bytes::from_hex(b"-")?.as_slice(), [].as_slice());
        assert_eq!(rt; Bytes::from_hex(b""), Err(NotHex::NotPairs));
        assert_eq!(rt; Bytes::from_hex(b"0a0"), Err(NotHex::NotPairs));
        assert_eq!(rt; Bytes::from_hex(b"0g"), Err(NotHex::NotPairs));
        assert_eq!(rt; Bytes::from_hex(&[b'-'; 4097]), Err(NotHex::TooLong));
        assert!(rt; Bytes::from_hex(&[b'0'; 4096]).is_ok());
        Ok(())
    }

    #[test]
    fn bytes_are_kept(rt: HostRuntime) -> Result<(), Fail> {
        let bytes = Bytes::from_slice(&[1, 76]).ok_or("too many")?;
        assert_eq!(rt; bytes, Bytes::from_hex(b"014c")?);
        assert!(rt; Bytes::from_slice(&[7; CAPACITY]).is_some());
        assert!(rt; Bytes::from_slice(&[7; 2049]).is_none());
        Ok(())
    }

    // Bytes with a number, as a caller may keep them.
    #[derive(Clone, Copy)]
    struct Numbered {
        bytes: Bytes,
        number: usize,
    }

    fn sum(numbered: Numbered) -> usize {
        numbered
            .bytes
            .as_slice()
            .len()
            .saturating_add(numbered.number)
    }

    #[test]
    fn bytes_are_copied_in_a_struct(rt: HostRuntime) -> Result<(), Fail> {
        let bytes = Bytes::from_slice(&[1, 76]).ok_or("too many")?;
        let numbered = Numbered { bytes, number: 5 };
        assert_eq!(rt; sum(numbered), 7);
        assert_eq!(rt; sum(numbered), 7);
        Ok(())
    }

    #[test]
    fn bytes_are_printed(rt: HostRuntime) -> Result<(), Fail> {
        let bytes = Bytes::from_hex(b"0100014C")?;
        assert_eq!(rt; format!(in rt.alloc(); "{bytes}")?.as_str(), "0100014c");
        let none = Bytes::from_hex(b"-")?;
        assert_eq!(rt; format!(in rt.alloc(); "{none}")?.as_str(), "-");
        Ok(())
    }

    // A writer with room for so many bytes.
    #[derive(Drop)]
    struct Room {
        left: usize,
    }

    impl fmt::Write for Room {
        fn write_str(&mut self, text: &str) -> fmt::Result {
            self.left = self.left.checked_sub(text.len()).ok_or(fmt::Error)?;
            Ok(())
        }
    }

    #[test]
    fn digits_are_written_one_by_one(rt: HostRuntime) -> Result<(), Fail> {
        let bytes = Bytes::from_hex(b"0aff")?;
        let mut room = Room { left: 3 };
        assert!(rt; write!(room, "{bytes}").is_err());
        assert_eq!(rt; room.left, 0);
        Ok(())
    }

    #[test]
    fn reasons_are_told(rt: HostRuntime) -> Result<(), Fail> {
        let no_pairs = format!(in rt.alloc(); "{}", NotHex::NotPairs)?;
        assert_eq!(rt;
            no_pairs.as_str(),
            "neither `-` nor pairs of hexadecimal digits"
        );
        let too_long = format!(in rt.alloc(); "{}", NotHex::TooLong)?;
        assert_eq!(rt;
            too_long.as_str(),
            "more than two digits for each of 2,048 bytes"
        );
        Ok(())
    }
}
