// Where a PDU ends.
use tetra_core::refusal::Refusal;

// What begins at a bit of a block.
#[derive(Clone, Copy)]
pub enum Extent {
    // Nothing: fewer than 16 bits are left.
    End,
    // A PDU without an end: why it is refused, at the offset of the refused field.
    Unsized(Refusal),
    // A null PDU, with its length field.
    Null(u8),
    // A PDU of so many bits.
    Sized(usize),
}
