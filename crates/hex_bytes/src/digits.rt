// Hexadecimal digits: what a character stands for, the byte of a pair of them, and the character of half a byte.
ghost use Rattle.std.specs.Prelude.{◌≡◌, ◌<◌};
ghost use Rattle.hex_bytes.specs.Digits.{character, digit_of, pair_of};

// The number that a digit stands for, in either case.
fn digit(c: u8) -> Option<u8>
    ensures { result ≡ digit_of c }
{
    char::from(c).to_digit(16).map(|d| d as u8)
}

// The byte that a pair of digits writes.
pub(crate) fn byte(pair: &[u8]) -> Option<u8>
    ensures { result ≡ pair_of pair.now }
{
    let [high, low] = pair else {
        return None;
    };
    Some(digit(*high)? * 16 + digit(*low)?)
}

// The lower-case digit of half a byte.
pub(crate) fn lower_case(half: u8) -> char
    requires { half < 16 }
    ensures { result ≡ character half }
{
    char::from_digit(u32::from(half), 16).unwrap()
}
