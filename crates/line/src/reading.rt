// The call that a line makes, read word by word from the left: the first word that is wrong decides.
ghost use Rattle.line.specs.Calls.{call_of, end_of, first_as, named_of, with_rest};
ghost use Rattle.line.specs.Reading.{read_of};
ghost use Rattle.line.specs.Spelling.{Spells};
ghost use Rattle.line.specs.Texts.{Printable, call_text};
ghost use Rattle.line.specs.Words.{uncommented, words};
ghost use Rattle.std.specs.Prelude.{◌≡◌, true, Some, Ok, IsUtf8, Decides};
ghost use Rattle.std.specs.Str.{is_utf8};

use crate::calls::{Call, NotCall};
use crate::values::FromWord;
use crate::words::Words;

// The value that the next word writes.
fn part<T: FromWord>(words: &mut Words<'_>) -> Result<T, NotCall>
    ensures { with_rest result words.new ≡ first_as T.value_of words.old }
{
    T::from_word(words.next().ok_or(NotCall::WordMissing)?)
}

// The call, where no word is left.
fn end(words: &Words<'_>, call: Call) -> Result<Call, NotCall>
    ensures { result ≡ end_of call words.now }
{
    if words.is_empty() {
        Ok(call)
    } else {
        Err(NotCall::TooManyWords)
    }
}

// The call of this name, from the words after the name.
fn named(name: &str, words: &mut Words<'_>) -> Result<Call, NotCall>
    ensures { result ≡ named_of name.now words.old }
{
    let call = match name {
        "enter" => Call::Enter {
            place: part(words)?,
            rate: part(words)?,
            safe: part(words)?,
            coverage: part(words)?,
        },
        "strike" => Call::Strike { row: part(words)? },
        "set" => Call::Set {
            place: part(words)?,
            field: part(words)?,
            value: part(words)?,
        },
        "blank" => Call::Blank {
            place: part(words)?,
            field: part(words)?,
        },
        "mode" => Call::Mode {
            letter: part(words)?,
        },
        "clear" => Call::Clear,
        "show" => Call::Show {
            place: part(words)?,
        },
        _ => return Err(NotCall::UnknownName),
    };
    end(words, call)
}

// The call that the words of a text make, or none where it has no words.
fn call(text: &str) -> Result<Option<Call>, NotCall>
    ensures { result ≡ call_of (words (uncommented text.now)) }
{
    let mut words = Words::of_line(text);
    words.next().map(|name| named(name, &mut words)).transpose()
}

// The call that a line makes, none where the line is blank, or why the line is no call.
// A line of text is read as a call just where the words before its comment spell that call: `accepted` and `spelled`.
// `value` says which reason is told of a line that is no call. A call that was read can be printed, and is then read again.
#[tactic(auto, using(crate::proofs::Printed::reading))]
pub fn read(line: &[u8]) -> Result<Option<Call>, NotCall>
    ensures value { result ≡ read_of line.now }
    ensures text { Decides (is_utf8 line.now) (IsUtf8 line.now) }
    ensures accepted { (c : Call) → result ≡ Ok (Some c) → (is_utf8 line.now ≡ true) × Spells (words (uncommented line.now)) c }
    ensures spelled { (c : Call) → is_utf8 line.now ≡ true → Spells (words (uncommented line.now)) c → result ≡ Ok (Some c) }
    ensures printable { (c : Call) → result ≡ Ok (Some c) → Printable c }
    ensures back { (c : Call) → Printable c → line.now ≡ call_text c → result ≡ Ok (Some c) }
{
    let text = std::str::from_utf8(line).map_err(|_| NotCall::NotText)?;
    call(text)
}
