// The mode of operation of a safety function.
ghost use Rattle.std.specs.Prelude.{◌≡◌};
ghost use Rattle.std.specs.Option.{ok_or};
ghost use Rattle.sheet.specs.Model.{letter_mode};
ghost use Rattle.sheet.specs.declared.fault.Fault.TheVariants.{LetterUnknown};

use crate::fault::Fault;

// Low demand: the figure is PFD. High demand: the figure is PFH per hour.
#[derive(Clone, Copy, PartialEq, Eq, Debug)]
pub enum Mode {
    Low,
    High,
}

// The mode of a letter, L or H.
impl TryFrom<char> for Mode {
    type Error = Fault;

    ghost try_from_gives = { λ letter r. r ≡ ok_or (letter_mode letter) LetterUnknown };

    fn try_from(letter: char) -> Result<Mode, Fault> {
        match letter {
            'L' => Ok(Mode::Low),
            'H' => Ok(Mode::High),
            _ => Err(Fault::LetterUnknown),
        }
    }
}
