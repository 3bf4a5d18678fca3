// The card as it grows, field by field, in a place that every card fits, so that no call allocates.
use arrayvec::ArrayVec;

// The most bytes that a card has: a mode, 64 settings and 64 rows.
pub const LONGEST_CARD: usize = 1348;

// The bytes so far, with room for the rest.
pub(crate) type CardBuffer = ArrayVec<u8, LONGEST_CARD>;
