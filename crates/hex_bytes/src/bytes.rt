// Bytes that are kept in place.
ghost use Rattle.hex_bytes.specs.Capacity.{IsKept};

mod methods;

// The most bytes that are kept.
pub const CAPACITY: usize = 2048;

// Up to 2,048 bytes in place, with zeros after them.
// The array and its length are fields, since a `Vec` allocates and an `ArrayVec` cannot be copied. What always holds of them stands in
// the struct, and no model does: a value that holds a struct with a model cannot be passed on by value and used again.
#[derive(Clone, Copy, PartialEq, Eq, Debug)]
pub struct Bytes {
    array: [u8; CAPACITY],
    length: usize,
    ghost kept: { IsKept array length },
}
