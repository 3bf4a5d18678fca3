// An answer as a line of text.
ghost use Rattle.std.specs.Prelude.{Some};
ghost use Rattle.console.specs.Texts.{answer_text, tenths_text, part_text};

use crate::answers::Answer;
use sheet::Refusal;
use std::fmt;

// Tenths of a per cent.
#[derive(Clone, Copy)]
struct Tenths(u32);

impl fmt::Display for Tenths {
    ghost output = { λ t. Some (tenths_text t.0) };

    fn fmt<W: fmt::Write>(&self, f: &mut fmt::Formatter<W>) -> fmt::Result {
        let whole = self.0 / 10;
        let tenth = self.0 % 10;
        write!(f, "{whole}.{tenth}")
    }
}

// A part of a refusal, with its name, that may be absent.
#[derive(Drop)]
struct Part<'a>(&'a str, Option<u32>);

impl fmt::Display for Part<'_> {
    ghost output = { λ p. Some (part_text p.0.now p.1) };

    fn fmt<W: fmt::Write>(&self, f: &mut fmt::Formatter<W>) -> fmt::Result {
        let name = self.0;
        match self.1 {
            Some(n) => write!(f, " {name} {n}"),
            None => Ok(()),
        }
    }
}

impl fmt::Display for Answer {
    ghost output = { λ a. Some (answer_text a) };

    fn fmt<W: fmt::Write>(&self, f: &mut fmt::Formatter<W>) -> fmt::Result {
        match *self {
            Answer::Row(n) => write!(f, "row {n}"),
            Answer::Done => write!(f, "done"),
            Answer::Shown(percentages) => {
                let sff = Tenths(percentages.sff);
                match percentages.diagnostic_coverage {
                    Some(tenths) => {
                        let dc = Tenths(tenths);
                        write!(f, "sff {sff} dc {dc}")
                    }
                    None => write!(f, "sff {sff} dc -"),
                }
            }
            Answer::Refused(fault) => {
                let refusal = Refusal::from(fault);
                let number = refusal.number;
                let place = Part("place", refusal.place);
                let item = Part("item", refusal.item);
                let layer = u8::from(refusal.layer);
                write!(f, "refused {number}{place}{item} layer {layer}: {fault}")
            }
            Answer::NotCall(why) => write!(f, "not a call: {why}"),
        }
    }
}
