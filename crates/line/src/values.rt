// What a single word writes: a number, a share or a letter.
ghost use Rattle.std.specs.Prelude.{◌≡◌, ℕ, List, Result};
ghost use Rattle.line.specs.Values.{is_numeral, letter_of, number_of, share_of};
ghost use Rattle.line.specs.declared.calls.NotCall.{NotCall};

use crate::calls::NotCall;

// A value that a word can write.
pub(crate) trait FromWord: Sized {
    // the value that a word writes, or why it writes none
    ghost value_of: { List ℕ → Result Self NotCall };

    // Reads the value from the word.
    fn from_word(word: &str) -> Result<Self, NotCall>
        ensures { result ≡ value_of word.now };
}

// Whether a word is one digit or more, and nothing else.
fn is_numeral(word: &str) -> bool
    ensures { result ≡ is_numeral word.now }
{
    !word.is_empty() && word.bytes().all(|b| b.is_ascii_digit())
}

// A number is written by digits, and by no sign.
impl FromWord for u32 {
    ghost value_of = { number_of };

    fn from_word(word: &str) -> Result<u32, NotCall> {
        if !is_numeral(word) {
            return Err(NotCall::NotNumber);
        }
        word.parse().map_err(|_| NotCall::NumberTooLarge)
    }
}

// A share is written by a number, or by `-` where it is blank.
impl FromWord for Option<u32> {
    ghost value_of = { share_of };

    fn from_word(word: &str) -> Result<Option<u32>, NotCall> {
        match word {
            "-" => Ok(None),
            _ => u32::from_word(word).map(Some),
        }
    }
}

// A letter is written by a word of one character.
impl FromWord for char {
    ghost value_of = { letter_of };

    fn from_word(word: &str) -> Result<char, NotCall> {
        word.parse().map_err(|_| NotCall::NotLetter)
    }
}
