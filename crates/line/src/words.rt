// How a line is cut: at its comment, and into words.
ghost use Rattle.std.specs.Prelude.{◌≡◌, [], ◌∷◌, length, MatchOption, Decides};
ghost use Rattle.std.specs.Iterator.{at_most};
ghost use Rattle.line.specs.Words.{blank, uncommented, words};

use std::marker::Model;

// The words of a text, from the left.
#[derive(Drop)]
pub(crate) struct Words<'a> {
    text: &'a str,
}

impl<'a> Model for Words<'a> {
    ghost use Rattle.std.specs.Prelude.{ℕ, List};
    ghost use Rattle.line.specs.Words.{words};

    ghost Value = { List (List ℕ) };

    ghost view = { λ w. words w.text.now };
}

// Of the white space that `char` knows, these four alone stand between words.
fn is_blank(c: char) -> bool
    ensures { result ≡ blank c }
{
    matches!(c, ' ' | '\t' | '\r' | '\n')
}

impl<'a> Words<'a> {
    // The words of a line up to its comment.
    pub(crate) fn of_line(line: &'a str) -> Words<'a>
        ensures { result ≡ words (uncommented line.now) }
    {
        let text = line.split_once('#').map_or(line, |(text, _)| text);
        Words { text }
    }

    // Whether no word is left.
    pub(crate) fn is_empty(&self) -> bool
        ensures { Decides result (self.now ≡ []) }
    {
        self.text.find(|c| !is_blank(c)).is_none()
    }
}

// Each turn cuts the first word from the text.
impl<'a> Iterator for Words<'a> {
    type Item = &'a str;

    ghost next_gives = { λ ws next rest. MatchOption next ((ws ≡ []) × (rest ≡ [])) (λ w. ws ≡ w.now ∷ rest) };

    ghost remaining = { λ ws. at_most (length ws) };

    fn next(&mut self) -> Option<&'a str> {
        let text = self.text;
        let start = text.find(|c| !is_blank(c))?;
        let text = &text[start..];
        let end = text.find(is_blank).unwrap_or(text.len());
        let (word, rest) = text.split_at(end);
        self.text = rest;
        Some(word)
    }
}
