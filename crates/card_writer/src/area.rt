// Why a card is not written, and the numbered refusal that it is told by.
ghost use Rattle.std.specs.Prelude.{◌≡◌};
ghost use Rattle.card.specs.Refusals.{card_refusal};

use sheet::{Layer, Refusal};

// The area is shorter than the card.
#[derive(Clone, Copy, Debug, PartialEq, Eq)]
pub struct AreaShort;

// The refusal, which names nothing.
impl From<AreaShort> for Refusal {
    ghost from_gives = { λ _ r. r ≡ card_refusal 18 };

    fn from(_: AreaShort) -> Refusal {
        Refusal {
            number: 18,
            place: None,
            item: None,
            layer: Layer::Card,
        }
    }
}
