// What is on its way out: encoded once, by functions that no slice is lent to, and then written at a cursor or put into a block.
ghost use Rattle.std.specs.Prelude.{ℕ, List, Bool, [], ◌∷◌, ◌≡◌, ◌≤◌, Err, length};
ghost use Rattle.bits.specs.Bits.{put_bits};
ghost use Rattle.tetra_core.specs.Refusal.{refused_by};
ghost use Rattle.tetra_core.specs.BitBuffer.{bytes_after};
ghost use Rattle.codec.specs.Piece.{Holds};
ghost use Rattle.codec.specs.Write.{write_at, written_at};
ghost use Rattle.codec.specs.Encoded.{pieces_bits, EncodesOne, Few, Fit, Sound, no_tail, front_with, pieces_with, size_of, bits_with, Placed, PuttableHeader, whole_of};

use crate::piece;
use crate::piece::Piece;
use tetra_core::bitbuffer;
use tetra_core::bitbuffer::{Cursor, Moved};
use tetra_core::refusal::Reason;

// What is encoded in one piece, of at most 63 bits.
pub trait Encode: Copy {
    // By its definition: the number that refuses it, or 0; how many bits it takes up in any case; and, where nothing refuses it, its bits.
    ghost refused: { Self → ℕ };

    ghost size: { Self → ℕ };

    ghost bits: { Self → List Bool };

    // Why it is not written, if so.
    fn refusal(self) -> Result<(), Reason>
        ensures { refused_by result ≡ refused self };

    // The bits that it takes up, also if it is refused.
    fn len(self) -> usize
        ensures { (result ≡ size self) × (result ≤ 63) };

    // Its bits as a number.
    fn word(self) -> u64
        requires { refused self ≡ 0 }
        ensures { Holds (bits self) (size self) (record { value = result; bits = size self }) };
}

// What one piece holds: whether it is refused, and its bits. Of what is refused only the size is looked at.
#[derive(Clone, Copy)]
pub struct Encoded {
    pub judged: Result<(), Reason>,
    pub piece: Piece,
}

// Where the front of a header has its length and its fill flag: the offset behind each.
#[derive(Clone, Copy)]
pub struct Places {
    pub length: usize,
    pub fill: usize,
}

// What does not fit into the rest.
#[derive(Clone, Copy)]
pub struct Tail {
    pub first: Piece,
    pub second: Piece,
}

// A header, with 0 in the places of its length and its fill flag, which are set when it is written, alone or into a block: what stands in front
// and has the places, the rest, and a tail.
#[derive(Clone, Copy)]
pub struct EncodedHeader {
    pub judged: Result<(), Reason>,
    pub front: Piece,
    pub rest: Piece,
    pub tail: Tail,
    pub places: Places,
}

// What would have so many bits, refused.
pub fn refused(reason: Reason, bits: usize) -> Encoded
    ensures { result ≡ record { judged = Err reason; piece = record { value = 0; bits = bits } } }
{
    Encoded {
        judged: Err(reason),
        piece: Piece { value: 0, bits },
    }
}

// What v holds.
pub fn of<T: Encode>(v: T) -> Encoded
    ensures { EncodesOne (T.refused v) (T.size v) (T.bits v) result }
{
    let bits = v.len();
    match v.refusal() {
        Ok(()) => Encoded {
            judged: Ok(()),
            piece: Piece {
                value: v.word(),
                bits,
            },
        },
        Err(reason) => refused(reason, bits),
    }
}

// Writes what one piece holds at the cursor.
pub fn write(s: &mut [u8], c: Cursor, e: Encoded) -> Moved
    requires { Sound (refused_by e.judged) (e.piece ∷ []) }
    ensures { (result ≡ write_at s.old c (refused_by e.judged) (pieces_bits (e.piece ∷ []))) × (s.new ≡ written_at s.old c (refused_by e.judged) (pieces_bits (e.piece ∷ []))) }
{
    let p = e.piece;
    let size = p.bits;
    let judged = crate::write_refusal(s.len(), c, e.judged, size);
    let pos = c.pos;
    piece::put(s, pos, judged, p, Piece { value: 0, bits: 0 });
    bitbuffer::moved_unless(c, judged, size)
}

// Writes v at the cursor.
pub fn to_bitbuf<T: Encode>(s: &mut [u8], c: Cursor, v: T) -> Moved
    ensures { (result ≡ write_at s.old c (T.refused v) (T.bits v)) × (s.new ≡ written_at s.old c (T.refused v) (T.bits v)) }
{
    write(s, c, of(v))
}

pub fn no_tail() -> Tail
    ensures { result ≡ no_tail }
{
    Tail {
        first: Piece { value: 0, bits: 0 },
        second: Piece { value: 0, bits: 0 },
    }
}

// A header of its front, its rest and its tail. What is judged before it, its front and its rest may refuse it, in this order; the tail is
// refused where the rest is.
pub fn whole(
    before: Result<(), Reason>,
    front: Encoded,
    rest: Encoded,
    tail: Tail,
    places: Places,
) -> EncodedHeader
    ensures { result ≡ whole_of before front rest tail places }
{
    let a = front.piece;
    let b = rest.piece;
    EncodedHeader {
        judged: before.and(front.judged.and(rest.judged)),
        front: a,
        rest: b,
        tail,
        places,
    }
}

// The bits that a header takes up, also if it is refused.
pub fn size(e: EncodedHeader) -> usize
    requires { Few e }
    ensures { result ≡ size_of e }
{
    e.front.bits + e.rest.bits + (e.tail.first.bits + e.tail.second.bits)
}

// The front of a header with a length and a fill flag in their places.
fn with_length(e: EncodedHeader, length_ind: u8, fill_bits: bool) -> Piece
    requires { Placed e × Few e × Fit (pieces_with e length_ind fill_bits) }
    ensures { result ≡ front_with e length_ind fill_bits }
{
    let p = e.front;
    let at = e.places;
    let fill = crate::bit(fill_bits);
    let length = (length_ind as u64) << (p.bits - at.length);
    let flag = fill << (p.bits - at.fill);
    Piece {
        value: p.value + (length + flag),
        bits: p.bits,
    }
}

// Puts a header into s from pos on, with a length and a fill flag, unless what is judged refuses it.
pub fn put_header(
    s: &mut [u8],
    pos: usize,
    judged: Result<(), Reason>,
    e: EncodedHeader,
    length_ind: u8,
    fill_bits: bool,
)
    requires { Few e × (refused_by judged ≡ 0 → PuttableHeader (length s.old) pos e length_ind fill_bits) }
    ensures { s.new ≡ bytes_after (refused_by judged) s.old (put_bits s.old pos (bits_with e length_ind fill_bits)) }
{
    if judged.is_err() {
        return;
    }
    let front = with_length(e, length_ind, fill_bits);
    let rest = e.rest;
    let first = e.tail.first;
    let second = e.tail.second;
    let behind = pos + (front.bits + rest.bits);
    piece::put(s, pos, judged, front, rest);
    piece::put(s, behind, judged, first, second);
}

// Writes a header at the cursor, with a length and a fill flag.
pub fn write_header(
    s: &mut [u8],
    c: Cursor,
    e: EncodedHeader,
    length_ind: u8,
    fill_bits: bool,
) -> Moved
    requires { Placed e × Sound (refused_by e.judged) (pieces_with e length_ind fill_bits) }
    ensures { (result ≡ write_at s.old c (refused_by e.judged) (bits_with e length_ind fill_bits)) × (s.new ≡ written_at s.old c (refused_by e.judged) (bits_with e length_ind fill_bits)) }
{
    let size = size(e);
    let judged = crate::write_refusal(s.len(), c, e.judged, size);
    let pos = c.pos;
    put_header(s, pos, judged, e, length_ind, fill_bits);
    bitbuffer::moved_unless(c, judged, size)
}
