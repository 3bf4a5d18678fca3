// The calls that a line can make, the reasons why a line is no call, and the text of both.
ghost use Rattle.line.specs.Texts.{call_text, not_call_text, share_text};
ghost use Rattle.std.specs.Prelude.{◌≡◌, Some};

use std::error::Error;
use std::fmt;

// A call with its numbers as they stand on the line: whether there is such a place or row is not decided here.
#[derive(Clone, Copy, PartialEq, Eq, Debug)]
pub enum Call {
    Enter {
        place: u32,
        rate: u32,
        safe: Option<u32>,
        coverage: Option<u32>,
    },
    Strike {
        row: u32,
    },
    Set {
        place: u32,
        field: u32,
        value: u32,
    },
    Blank {
        place: u32,
        field: u32,
    },
    Mode {
        letter: char,
    },
    Clear,
    Show {
        place: u32,
    },
}

// Why a line is no call.
#[derive(Clone, Copy, PartialEq, Eq, Debug)]
pub enum NotCall {
    NotText,
    TooLong,
    UnknownName,
    WordMissing,
    NotNumber,
    NumberTooLarge,
    NotLetter,
    TooManyWords,
}

// A share as a line has it: a number, or `-` where it is blank.
#[derive(Clone, Copy)]
struct Share(Option<u32>);

impl fmt::Display for Share {
    ghost output = { λ s. Some (share_text s.0) };

    fn fmt<W: fmt::Write>(&self, f: &mut fmt::Formatter<W>) -> fmt::Result {
        match self.0 {
            Some(n) => write!(f, "{n}"),
            None => write!(f, "-"),
        }
    }
}

impl fmt::Display for Call {
    ghost output = { λ c. Some (call_text c) };

    fn fmt<W: fmt::Write>(&self, f: &mut fmt::Formatter<W>) -> fmt::Result {
        match *self {
            Call::Enter {
                place,
                rate,
                safe,
                coverage,
            } => {
                let safe = Share(safe);
                let coverage = Share(coverage);
                write!(f, "enter {place} {rate} {safe} {coverage}")
            }
            Call::Strike { row } => write!(f, "strike {row}"),
            Call::Set {
                place,
                field,
                value,
            } => write!(f, "set {place} {field} {value}"),
            Call::Blank { place, field } => write!(f, "blank {place} {field}"),
            Call::Mode { letter } => write!(f, "mode {letter}"),
            Call::Clear => write!(f, "clear"),
            Call::Show { place } => write!(f, "show {place}"),
        }
    }
}

impl NotCall {
    // The reason in words.
    fn text(self) -> &'static str
        ensures { result.now ≡ not_call_text self }
    {
        match self {
            NotCall::NotText => "line is not text",
            NotCall::TooLong => "line is longer than 4096 bytes",
            NotCall::UnknownName => "no call has this name",
            NotCall::WordMissing => "a word is missing",
            NotCall::NotNumber => "not a number",
            NotCall::NumberTooLarge => "number too large",
            NotCall::NotLetter => "not a single character",
            NotCall::TooManyWords => "too many words",
        }
    }
}

// Written out, since a derived error promises nothing of its text.
impl fmt::Display for NotCall {
    ghost output = { λ n. Some (not_call_text n) };

    fn fmt<W: fmt::Write>(&self, f: &mut fmt::Formatter<W>) -> fmt::Result {
        f.write_str(self.text())
    }
}

impl Error for NotCall {}
