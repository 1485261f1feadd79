// Bits on their way out: several fields become one number, and one write.
ghost use Rattle.std.specs.Prelude.{◌++◌, ◌≡◌, ◌+◌, ◌^◌, ◌≤◌, ◌<◌, length};
ghost use Rattle.bits.specs.Bits.{put_bits};
ghost use Rattle.tetra_core.specs.Refusal.{refused_by};
ghost use Rattle.tetra_core.specs.BitBuffer.{bytes_after};
ghost use Rattle.codec.specs.Piece.{piece_bits, Holds, Puttable};

use bits::word;
use tetra_core::refusal::Reason;

// The low `bits` bits of `value`, the highest of them first; value < 2^bits.
#[derive(Clone, Copy)]
pub struct Piece {
    pub value: u64,
    pub bits: usize,
}

// Two pieces, one after the other.
pub fn joined(a: Piece, b: Piece) -> Piece
    requires { (a.value < 2 ^ a.bits) × (b.value < 2 ^ b.bits) × (a.bits + b.bits ≤ 63) }
    ensures { Holds (piece_bits a ++ piece_bits b) (a.bits + b.bits) result }
{
    let x = a.value;
    let n = a.bits;
    let y = b.value;
    let m = b.bits;
    Piece {
        value: (x << m) + y,
        bits: n + m,
    }
}

// Puts two pieces into s from pos on, one after the other, unless what is judged refuses them: by one write where a word holds both.
pub fn put(s: &mut [u8], pos: usize, judged: Result<(), Reason>, a: Piece, b: Piece)
    requires { refused_by judged ≡ 0 → Puttable (length s.old) pos a b }
    ensures { s.new ≡ bytes_after (refused_by judged) s.old (put_bits s.old pos (piece_bits a ++ piece_bits b)) }
{
    if judged.is_err() {
        return;
    }
    let n = a.bits;
    let m = b.bits;
    if n + m < 1 {
        return;
    }
    if n + m < 64 {
        let both = joined(a, b);
        word::put_by_words(s, pos, both.bits, both.value);
        return;
    }
    word::put_by_words(s, pos, n, a.value);
    word::put_by_words(s, pos + n, m, b.value);
}
