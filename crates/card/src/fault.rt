// Why a card is refused, and the numbered refusal that it is told by.
ghost use Rattle.std.specs.Prelude.{◌≡◌};
ghost use Rattle.card.specs.Refusals.{cause_refusal, fault_refusal};
ghost use Rattle.card.specs.declared.fault.Cause.TheVariants.{Sheet as CauseSheet};

use sheet::{Fault, Layer, Refusal};

// What is wrong with a field of a card.
#[derive(Clone, Copy, Debug, PartialEq, Eq)]
pub enum Cause {
    // the card ends within its first three bytes or its value
    CutShort,
    // its tag is not 1, 2 or 3
    UnknownTag,
    // its length is not that of its tag
    WrongLength,
    // it is a mode or a setting that stands after a field that it should stand before, or a second time
    OutOfOrder,
    // the sheet refuses what it says
    Sheet(Fault),
}

// What is wrong with a card: the first field that is refused, by the byte at which it starts, and why.
#[derive(Clone, Copy, Debug, PartialEq, Eq)]
pub struct CardFault {
    pub byte: usize,
    pub cause: Cause,
}

impl From<Fault> for Cause {
    ghost from_gives = { λ f r. r ≡ CauseSheet f };

    fn from(fault: Fault) -> Cause {
        Cause::Sheet(fault)
    }
}

// The refusal of a cause.
impl From<Cause> for Refusal {
    ghost from_gives = { λ c r. r ≡ cause_refusal c };

    fn from(cause: Cause) -> Refusal {
        let number = match cause {
            Cause::CutShort => 14,
            Cause::UnknownTag => 15,
            Cause::WrongLength => 16,
            Cause::OutOfOrder => 17,
            Cause::Sheet(fault) => return fault.into(),
        };
        Refusal {
            number,
            place: None,
            item: None,
            layer: Layer::Card,
        }
    }
}

// What a refused card tells: the refusal of its field, and the byte at which that field starts.
#[derive(Clone, Copy, Debug, PartialEq, Eq)]
pub struct CardRefusal {
    pub refusal: Refusal,
    pub byte: usize,
}

// The refusal of a fault: a refusal of the sheet is carried whole, with the byte of the field.
impl From<CardFault> for CardRefusal {
    ghost from_gives = { λ f r. r ≡ fault_refusal f };

    fn from(fault: CardFault) -> CardRefusal {
        CardRefusal {
            refusal: fault.cause.into(),
            byte: fault.byte,
        }
    }
}
